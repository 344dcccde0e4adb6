// The text of the program's help.

use crate::version::VERSION;
use std::alloc::{AllocError, Global};

// The help, in lines of 80 columns at most.
pub(crate) fn make_help(alloc: Global) -> Result<String, AllocError> {
    String::from_str(alloc, HELP)
}

// The version, in one line.
pub(crate) fn make_version(alloc: Global) -> Result<String, AllocError> {
    format!(in alloc; "homerange-split {VERSION}\n")
}

const HELP: &str = "Tracks for homerange from an export of Movebank, or from another table of
location fixes: in a new folder a file NAME.csv for each animal, and split.txt,
which records the export, the options, and what was left out or changed.
Standard error says that too. A table that cannot be read as it is meant is
refused, and then there is no folder.

Usage: homerange-split [OPTIONS] EXPORT...

Arguments:
  EXPORT...  The export: text with a line of titles, or GPX; - is standard
             input. Several with the same titles are one table; an animal may
             be in several

Options:
      --into <FOLDER>          Folder to make [default: tracks]
      --unit <UNIT>            Unit of the coordinates of tracks: m for metres,
                               dm for decimetres [default: m]
      --zone <ZONE>            UTM zone of all coordinates, such as 33N
      --crs <SYSTEM>           Reference system of coordinates in metres, for
                               the record alone
      --from <MAKER>           Options for a maker: vectronic, lotek, telonics,
                               eobs, ornitela, argos, gpx
      --encoding <ENCODING>    Encoding of the export [default: utf-8]
      --skip-lines <LINES>     Number of lines before that of titles
      --header <TITLE>         Start of the line of titles, where others stand
                               before it
      --na <WORDS>             Words for what is missing, between commas, beside
                               NA and nothing
      --animal <COLUMN>        Title of the column of the animal; of
                               COLUMN,COLUMN the second where the first is
                               empty
      --name <NAME>            Name of the one animal, where no column has it
                               [default: animal]
      --time <COLUMN>          Title of the column of the time; COLUMN,COLUMN
                               are joined
      --time-format <FORM>     Form of times, such as '%d.%m.%Y %H:%M:%S'
      --tz <ZONE>              Zone of times, such as Europe/Ljubljana
                               [default: UTC]
      --easting <COLUMN>       Title of the column of the easting in metres
      --northing <COLUMN>      Title of the column of the northing in metres
      --lon <COLUMN>           Title of the column of the longitude
      --lat <COLUMN>           Title of the column of the latitude
      --argos <COLUMN>         Title of the column of Argos classes
      --dop <COLUMN>           Title of the column of the dilution of precision
      --fix <COLUMN>           Title of the column of the type of fixes
      --mark                   Write outliers too, with 0 in a column use
      --skip-unnamed           Leave out records that name no animal
      --records                Write records.txt too: for each record the file
                               that it is in, or why it is left out
      --machine                Say why an export is refused as a record of CSV:
                               kind, file, record, text
  -h, --help                   Print help
  -V, --version                Print version

Filters, in their order (none is a fix without a sensor or a class):
      --sensor <SENSORS>       Fixes of these sensors, such as gps
      --argos-class <CLASSES>  Fixes of these Argos classes, such as 3,2,1
      --max-dop <DOP>          Fixes whose dilution of precision is at most this
      --fix-type <TYPES>       Fixes of these types, such as 3D
      --since <TIME>           Fixes of this moment or later, such as 2024-03-01
      --until <TIME>           Fixes of this moment or before; a day is its last
      --max-speed <SPEED>      Fixes that the animal could come to from the last
                               that is kept, at so many metres a second
      --every <LENGTH>         The first fix of each piece of so long, such as
                               2h or 30min, counted by the clock of --tz

Table:
  Fields stand between commas, semicolons or tabs. Columns that are not named
  are found by their usual titles, such as those of Movebank:
    individual-local-identifier   the animal
    timestamp                     the time in UTC, such as 2024-05-01 00:30:04
    location-long, location-lat   where it was, in degrees of WGS 84
    utm-easting, utm-northing     where it was, in metres
    utm-zone                      the zone of these, such as 33N
  Titles such as animal,second,easting,northing and id,date,x,y are usual too; a
  column second has seconds since a start of your own. docs/TABLES.md has all
  titles, and the rules by which tables are read. Longitude and latitude are
  projected into the UTM zone of most fixes.

Example:
  homerange-split --zone 33N export.csv
  homerange tracks/*.csv > report.csv

Exit status:
  0  the tracks, or this help or the version, were written
  1  the table is refused or cannot be read, or the folder is there already
  2  the words of the command line are refused
  3  there is not enough memory
  4  the folder cannot be written
With a status from 1 to 4, one line on standard error says why.
";
