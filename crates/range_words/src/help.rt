// The text of the program's help. Limits and defaults stand in it by their names.

ghost use Rattle.std.specs.Prelude.{◌≡◌, IfOk, Some, string_bytes};
ghost use Rattle.std.specs.Fmt.{WritesOnOk, decimal};
ghost use Rattle.range_plane.specs.Scale.{limit as limit_in};
ghost use Rattle.range_words.specs.Help.{arguments_text, coordinates_text, files_text, help_text, levels_text, limits_text, number_text, options_text, speed_text, version_text};

use crate::defaults::{
    DEFAULT_BLOCK, DEFAULT_DEPTH, DEFAULT_LEVELS, DEFAULT_UNIT, DEFAULT_WORKERS,
};
use crate::version::VERSION;
use range_options::{
    BLOCK_LIMIT, DEPTH_LIMIT, FILE_LIMIT, LEVEL_COUNT_LIMIT, LEVEL_LIMIT, WORKER_LIMIT,
};
use range_plane::{FIX_LIMIT, SECOND_LIMIT, Scale};
use std::alloc::{AllocError, Global};
use std::fmt;

/// The help, in lines of 80 columns at most.
pub(crate) fn make_help(alloc: Global) -> Result<String, AllocError>
    ensures { IfOk result (λ text. string_bytes text ≡ help_text) }
{
    format!(in alloc; "{}", Help)
}

/// The version, in one line.
pub(crate) fn make_version(alloc: Global) -> Result<String, AllocError>
    ensures { IfOk result (λ text. string_bytes text ≡ version_text) }
{
    format!(in alloc; "homerange {VERSION}\n")
}

#[derive(Clone, Copy)]
struct Help;

impl fmt::Display for Help {
    ghost output = { λ _. Some help_text };

    fn fmt<W: fmt::Write>(&self, f: &mut fmt::Formatter<W>) -> fmt::Result {
        f.write_str(ABOUT)?;
        write_arguments(f)?;
        write_options(f)?;
        write_speed(f)?;
        write_files(f)?;
        f.write_str(END)
    }
}

const ABOUT: &str = "Home ranges of tagged animals by the minimum convex polygon, from files of
location fixes. The report goes to standard output.

Usage: homerange [--percent LIST] [--unit UNIT] [--block N] [--depth N]
                 [--workers N] [FILE ...]

";

// The files.
fn write_arguments<W: fmt::Write>(f: &mut fmt::Formatter<W>) -> fmt::Result
    ensures { WritesOnOk W.write_str_gives f.old result arguments_text f.new }
{
    write!(
        f,
        "Arguments:
  [FILE]...  Files to read, {FILE_LIMIT} at most, one animal in each; with none,
             standard input

"
    )
}

// The options that change the report, and the two that ask.
fn write_options<W: fmt::Write>(f: &mut fmt::Formatter<W>) -> fmt::Result
    ensures { WritesOnOk W.write_str_gives f.old result options_text f.new }
{
    write_levels(f)?;
    write!(
        f,
        "      --unit <UNIT>     Unit of all coordinates: m for metres, dm for decimetres\n                        [default: {DEFAULT_UNIT}]\n  -h, --help            Print help\n  -V, --version         Print version\n\n"
    )
}

// The option of the levels.
fn write_levels<W: fmt::Write>(f: &mut fmt::Formatter<W>) -> fmt::Result
    ensures { WritesOnOk W.write_str_gives f.old result levels_text f.new }
{
    write!(
        f,
        "Options:\n      --percent <LIST>  Levels of the percent polygons: 1 to {LEVEL_COUNT_LIMIT} whole numbers\n                        from 1 to {LEVEL_LIMIT}, separated by commas [default: {DEFAULT_LEVELS}]\n"
    )
}

// The options that change the time alone.
fn write_speed<W: fmt::Write>(f: &mut fmt::Formatter<W>) -> fmt::Result
    ensures { WritesOnOk W.write_str_gives f.old result speed_text f.new }
{
    f.write_str("Speed:\n")?;
    let block = "block <N>    Fixes that are handed on together";
    write_number(f, block, BLOCK_LIMIT, DEFAULT_BLOCK)?;
    let depth = "depth <N>    Blocks that may wait for each worker";
    write_number(f, depth, DEPTH_LIMIT, DEFAULT_DEPTH)?;
    let workers = "workers <N>  Workers that estimate ranges";
    write_number(f, workers, WORKER_LIMIT, DEFAULT_WORKERS)?;
    f.write_str("\nBlock, depth and workers change the time taken, and not the report.\n\n")
}

// An option that is a number.
fn write_number<W: fmt::Write>(
    f: &mut fmt::Formatter<W>,
    what: &str,
    limit: u32,
    default: u32,
) -> fmt::Result
    ensures { WritesOnOk W.write_str_gives f.old result (number_text what.now limit default) f.new }
{
    write!(f, "      --{what}, 1 to {limit} [default: {default}]\n")
}

// What a file is.
fn write_files<W: fmt::Write>(f: &mut fmt::Formatter<W>) -> fmt::Result
    ensures { WritesOnOk W.write_str_gives f.old result files_text f.new }
{
    write!(
        f,
        "Files:\n  A file is comma-separated text. Its first line is\n  animal,second,easting,northing and each line after it is one fix; there are 1\n  to {FIX_LIMIT} such lines. With the first line\n  animal,second,easting,northing,use each line says at its end whether its fix\n  is used.\n"
    )?;
    write!(
        f,
        "    animal    the animal's name, the same in the whole file and in no other file\n              of the run: 1 to 32 bytes, with no comma, double quote or control\n              character\n    second    when it was there: a whole second from 0 to {SECOND_LIMIT},\n              which never falls\n"
    )?;
    write_coordinates(f)
}

// The fields of coordinates and of use.
fn write_coordinates<W: fmt::Write>(f: &mut fmt::Formatter<W>) -> fmt::Result
    ensures { WritesOnOk W.write_str_gives f.old result coordinates_text f.new }
{
    f.write_str(
        "    easting   where it was, such as a UTM easting: whole metres from 0 to\n              ",
    )?;
    write_limits(f)?;
    f.write_str(
        "    northing  likewise; the fixes of a run have to be of one zone\n    use       1, or 0 for a fix that is left out; at least one has to be used\n  Faults count records from the line below the first, blank lines left out.\n\n",
    )
}

// The limit of coordinates in a unit.
#[derive(Clone, Copy)]
struct Limit(Scale);

impl fmt::Display for Limit {
    ghost output = { λ limit. Some (decimal (limit_in limit.0)) };

    fn fmt<W: fmt::Write>(&self, f: &mut fmt::Formatter<W>) -> fmt::Result {
        let limit = self.0.limit();
        write!(f, "{limit}")
    }
}

// The limits of coordinates.
fn write_limits<W: fmt::Write>(f: &mut fmt::Formatter<W>) -> fmt::Result
    ensures { WritesOnOk W.write_str_gives f.old result limits_text f.new }
{
    let (metres, decimetres) = (Limit(Scale::Metre), Limit(Scale::Decimetre));
    write!(
        f,
        "{metres}, or with --unit dm whole decimetres from 0 to\n              {decimetres}\n"
    )
}

// What the report is, and the status.
const END: &str = "Report:
  unit,dm
      the first line, with --unit dm alone
  animal,NAME,fixes,N
      an animal, and how many fixes it has
  box,NAME,minE,minN,maxE,maxN
      the least and the greatest easting and northing
  row,NAME,n,second,corners,area2
      the range of the first n fixes, for each n: the second of fix n, and the
      corners and doubled area of the polygon
  corner,NAME,i,easting,northing
      the corners of the polygon of all fixes, counterclockwise from the
      westernmost
  percent,NAME,level,kept,corners,area2
      the polygon of the fixes that a level keeps
  overlap,A,B,count,fixes
      how many of the fixes of A lie in the polygon of B, edges included, and
      how many fixes A has
  end,ANIMALS
      the last line: how many animals there are
  The lines of each animal come together, in the order of the files, and then
  the overlaps. area2 is twice the area in square metres: divide it by 2, or by
  20000 for hectares. With --unit dm it is twice the area in square decimetres:
  divide it by 2000000 for hectares.

Percent polygons:
  Of n fixes level p keeps the (p*n + 99)/100 nearest to the mean of all fixes,
  division cutting off; of fixes at one distance the earlier in the file goes
  first. The polygon is that of those.

Example:
  homerange --percent 50,95 fox.csv badger.csv > report.csv

Exit status:
  0  the report, or this help or the version, was written
  1  a file cannot be opened or read, or is not as above; or two files have the
     same animal
  2  the words of the command line are refused
  3  there is not enough memory
  4  the output cannot be written
  5  the fixes of a file were not all handed on from its reader to its worker
With a status from 1 to 5, one line on standard error says why, unless the
reader of the output has gone.
";
