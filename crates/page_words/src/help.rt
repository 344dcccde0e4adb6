// The text of the program's help.

use crate::version::VERSION;
use std::alloc::{AllocError, Global};

// The help, in lines of 80 columns at most.
pub(crate) fn make_help(alloc: Global) -> Result<String, AllocError> {
    String::from_str(alloc, HELP)
}

// The version, in one line.
pub(crate) fn make_version(alloc: Global) -> Result<String, AllocError> {
    format!(in alloc; "homerange-page {VERSION}\n")
}

const HELP: &str = "Tables and the page of ranges, of a folder that has a report of homerange as
report.txt and the tracks that it was made of in tracks: into the folder it
writes summary.csv, animals.csv, overlaps.csv and report.html, over those that
are there. It reads tracks/split.txt, where that is there, and boundary.csv: the
rings of a boundary, which the map shows. Report, record and tracks have to
agree; else they are refused. Without tracks the map shows no fixes, and the
polygons of all fixes alone.

Usage: homerange-page [OPTIONS] FOLDER

Arguments:
  FOLDER  The folder

Options:
      --title <TEXT>           Title of the page; else it names the animals
      --study <TEXT>           Study that the page belongs to
      --species <TEXT>         Species of the animals
      --by <TEXT>              Who made the page
      --reference <TEXT>       Reference of the case, such as its file number
      --purpose <TEXT>         What the page is for
      --boundary-name <TEXT>   What the boundary is called [default: boundary]
      --clock <ZONE>           Zone of dates, such as Europe/Ljubljana
                               [default: UTC]
      --system <TEXT>          Reference system of coordinates, where
                               tracks/split.txt names none
      --shift <EAST,NORTH>     Metres that were added to eastings and northings,
                               where there is no tracks/split.txt [default: 0,0]
      --area-difference <LEAST,MOST>
                               Per cent by which areas on the grid differ from
                               those on the ellipsoid, such as -0.07,+0.12; of a
                               UTM zone it is computed
      --made <DAY>             Day of making, such as 2026-11-30
      --program <TEXT>         What the program that made the report says of its
                               version [default: homerange]
      --program-sum <SUM>      Its SHA-256 checksum
      --alone                  The page is handed in without its folder, so that
                               it has no checksum of the report
      --data                   The export that tracks/split.txt names is a table
                               of data in memory, which nobody has
  -h, --help                   Print help
  -V, --version                Print version

Exit status:
  0  the files, or this help or the version, were written
  1  a file of the folder cannot be read, or is not as it has to be, or two do
     not agree
  2  the words of the command line are refused
  3  there is not enough memory
  4  a file cannot be written
With a status from 1 to 4, one line on standard error says why.
";
