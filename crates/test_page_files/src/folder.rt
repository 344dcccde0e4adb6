// A folder of two animals and the files that belong to it, made by the package for Python of a table of nine records in Debian 12: tables,
// and the checksum of the page.

pub(crate) const REPORT: &str = "animal,a&b,fixes,4\n\
    box,a&b,500100,5000100,500300,5000400\n\
    row,a&b,1,1711929600,1,0\n\
    row,a&b,2,1711951200,2,0\n\
    row,a&b,3,1711972800,3,60000\n\
    row,a&b,4,1712016000,4,95000\n\
    corner,a&b,1,500100,5000100\n\
    corner,a&b,2,500300,5000100\n\
    corner,a&b,3,500300,5000400\n\
    corner,a&b,4,500150,5000350\n\
    percent,a&b,100,4,4,95000\n\
    percent,a&b,50,2,2,0\n\
    animal,fox,fixes,3\n\
    box,fox,500200,5000200,500600,5000700\n\
    row,fox,1,1711929600,1,0\n\
    row,fox,2,1711951200,2,0\n\
    row,fox,3,1712059200,3,190000\n\
    corner,fox,1,500200,5000200\n\
    corner,fox,2,500600,5000250\n\
    corner,fox,3,500400,5000700\n\
    percent,fox,100,3,3,190000\n\
    percent,fox,50,2,2,0\n\
    overlap,a&b,fox,1,4\n\
    overlap,fox,a&b,1,3\n\
    end,2\n";

pub(crate) const RECORD: &str = "export,small.csv\n\
    sha256,3eb5a058608b0a1c0f04985d9c4183d9f922299fe43407c2235076f75afd56ae\n\
    unit,m\n\
    zone,33N\n\
    option,max-dop,5\n\
    option,until,2025-01-01\n\
    option,zone,33N\n\
    said,1 fixes have a DOP above 5: left out\n\
    said,1 fixes are after 2025-01-01: left out\n\
    said,coordinates are those of the table; zone: 33N\n\
    said,no fix of 'gone' is left: no file\n\
    said,columns: animal, timestamp, easting, northing; 2 animals, box 0.500 by 0.600 km near 15.0 E 45.2 N, from 2024-04-01 to 2024-04-02\n\
    left,a&b,1,dop\n\
    left,gone,1,after\n\
    track,a&b,4,4,c16d70cbe59c58c3c6f8813d549cf41a511609d5a3ef0b66f91dffba9a4a6dce\n\
    track,fox,3,3,6c719adaf1727d54c799c43eade8be523c3c69de318ea75e13568dc01a0f4118\n\
    tool,homerange-split 1.0.0 (logic dac8208d650f15bf)\n";

pub(crate) const BOUNDARY: &str = "ring,easting,northing\n\
    1,500000.000,5000000.000\n\
    1,500400.000,5000000.000\n\
    1,500400.000,5000300.000\n";

pub(crate) const FIRST_TRACK: &str = "animal,second,easting,northing\n\
    a&b,1711929600,500100,5000100\n\
    a&b,1711951200,500300,5000100\n\
    a&b,1711972800,500300,5000400\n\
    a&b,1712016000,500150,5000350\n";

pub(crate) const SECOND_TRACK: &str = "animal,second,easting,northing\n\
    fox,1711929600,500200,5000200\n\
    fox,1711951200,500600,5000250\n\
    fox,1712059200,500400,5000700\n";

pub(crate) const SUMMARY: &str = "animal,first,last,fixes,level,kept,corners,hectares\n\
    a&b,2024-04-01T00:00:00Z,2024-04-02T00:00:00Z,4,100,4,4,4.75\n\
    a&b,2024-04-01T00:00:00Z,2024-04-02T00:00:00Z,4,50,2,2,0.0\n\
    fox,2024-04-01T00:00:00Z,2024-04-02T12:00:00Z,3,100,3,3,9.5\n\
    fox,2024-04-01T00:00:00Z,2024-04-02T12:00:00Z,3,50,2,2,0.0\n";

pub(crate) const ANIMALS: &str =
    "animal,records,left_dop,used,first,last,days,median_hours,longest_hours,hectares_100,hectares_50,within_95_fix,within_95_time,last_tenth,last_quarter\n\
    a&b,5,1,4,2024-04-01T00:00:00Z,2024-04-02T00:00:00Z,1.0,6.0,12.0,4.75,0.0,4,2024-04-02T00:00:00Z,0.3684,0.3684\n\
    fox,3,0,3,2024-04-01T00:00:00Z,2024-04-02T12:00:00Z,1.5,18.0,30.0,9.5,0.0,3,2024-04-02T12:00:00Z,1.0,1.0\n";

pub(crate) const OVERLAPS: &str = "fixes_of,a&b,fox\n\
    a&b,1.0,0.25\n\
    fox,0.3333,1.0\n";

// The SHA-256 checksum of the page.
pub(crate) const PAGE_SUM: &str =
    "180c3cdc42976b34ca4137f3b071f8e5d73bd2bd5d0ed4805626c26c69ade0d4";

// What the program that made the report says of its version, and its checksum.
pub(crate) const PROGRAM: &[u8] = b"homerange 1.0.0 (logic dac8208d650f15bf)";

pub(crate) const PROGRAM_SUM: &[u8] =
    b"7c81323b39f9a1ace2e0e002a20ed235e40a2e1507b194c9c1ded571c8f277ff";
