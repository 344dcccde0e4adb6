// Worked tracks, as fixes and as the bytes of files. They are for tests alone.

/// The first line of a file.
pub const HEADER: &[u8] = b"animal,second,easting,northing\n";

/// The first line of a file that says of each record whether it is used.
pub const HEADER_WITH_USE: &[u8] = b"animal,second,easting,northing,use\n";

/// Fixes by their seconds, eastings and northings: the corners of a square, and a fix within it.
pub const SQUARE: [(u64, i64, i64); 5] = [
    (0, 0, 0),
    (60, 10, 0),
    (120, 10, 10),
    (180, 0, 10),
    (240, 5, 5),
];

/// The fixes of the square, of the animal A.
pub const FILE_A: &[u8] =
    b"animal,second,easting,northing\nA,0,0,0\nA,60,10,0\nA,120,10,10\nA,180,0,10\nA,240,5,5\n";

/// File A without its last field.
pub const CUT_A: &[u8] =
    b"animal,second,easting,northing\nA,0,0,0\nA,60,10,0\nA,120,10,10\nA,180,0,10\nA,240,5\n";

/// File A behind a byte order mark.
pub const MARKED_A: &[u8] =
    b"\xEF\xBB\xBFanimal,second,easting,northing\nA,0,0,0\nA,60,10,0\nA,120,10,10\nA,180,0,10\nA,240,5,5\n";

/// File A in quotes, with ends of lines of two bytes.
pub const QUOTED_A: &[u8] =
    b"\"animal\",\"second\",\"easting\",\"northing\"\r\n\"A\",0,0,0\r\n\"A\",60,10,0\r\n\"A\",120,10,10\r\n\"A\",180,0,10\r\n\"A\",240,5,5\r\n";

/// The same behind a byte order mark.
pub const MARKED_AND_QUOTED_A: &[u8] =
    b"\xEF\xBB\xBF\"animal\",\"second\",\"easting\",\"northing\"\r\n\"A\",0,0,0\r\n\"A\",60,10,0\r\n\"A\",120,10,10\r\n\"A\",180,0,10\r\n\"A\",240,5,5\r\n";

/// Three fixes in a line, of the animal B.
pub const FILE_B: &[u8] = b"animal,second,easting,northing\nB,0,5,5\nB,60,10,5\nB,120,20,5\n";
