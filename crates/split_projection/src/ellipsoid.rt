// The ellipsoid of WGS 84, and the coefficients of Krueger's series on it, to the sixth power of its third flattening.

/// The equatorial radius in metres.
pub(crate) const RADIUS: f64 = 6_378_137.0;

const FLATTENING: f64 = 1.0 / 298.257223563;

/// The third flattening: of the half axes, their difference over their sum.
const N: f64 = FLATTENING / (2.0 - FLATTENING);

const N_2: f64 = N * N;

const N_3: f64 = N_2 * N;

const N_4: f64 = N_2 * N_2;

const N_5: f64 = N_4 * N;

const N_6: f64 = N_3 * N_3;

/// The radius of the sphere whose meridians are as long as those of the ellipsoid, in equatorial radii.
pub(crate) const MERIDIAN_RADIUS: f64 = (1.0 + N_2 * (1.0 / 4.0 + N_2 * (1.0 / 64.0 + N_2 / 256.0)))
    / (1.0 + N);

/// The series from the geographic latitude to that on the Gaussian sphere, which is conformal: one coefficient for each even
/// multiple of the latitude.
pub(crate) const TO_SPHERE: [f64; 6] = [
    N * (-2.0
        + N * (2.0 / 3.0
            + N * (4.0 / 3.0 + N * (-82.0 / 45.0 + N * (32.0 / 45.0 + N * (4642.0 / 4725.0)))))),
    N_2 * (5.0 / 3.0
        + N * (-16.0 / 15.0 + N * (-13.0 / 9.0 + N * (904.0 / 315.0 + N * (-1522.0 / 945.0))))),
    N_3 * (-26.0 / 15.0 + N * (34.0 / 21.0 + N * (8.0 / 5.0 + N * (-12686.0 / 2835.0)))),
    N_4 * (1237.0 / 630.0 + N * (-12.0 / 5.0 + N * (-24832.0 / 14175.0))),
    N_5 * (-734.0 / 315.0 + N * (109598.0 / 31185.0)),
    N_6 * (444337.0 / 155925.0),
];

/// The series from the transverse Mercator coordinates of the sphere to those of the ellipsoid.
pub(crate) const TO_ELLIPSOID: [f64; 6] = [
    N * (1.0 / 2.0
        + N * (-2.0 / 3.0
            + N * (5.0 / 16.0
                + N * (41.0 / 180.0 + N * (-127.0 / 288.0 + N * (7891.0 / 37800.0)))))),
    N_2 * (13.0 / 48.0
        + N * (-3.0 / 5.0
            + N * (557.0 / 1440.0 + N * (281.0 / 630.0 + N * (-1983433.0 / 1935360.0))))),
    N_3 * (61.0 / 240.0
        + N * (-103.0 / 140.0 + N * (15061.0 / 26880.0 + N * (167603.0 / 181440.0)))),
    N_4 * (49561.0 / 161280.0 + N * (-179.0 / 168.0 + N * (6601661.0 / 7257600.0))),
    N_5 * (34729.0 / 80640.0 + N * (-3418889.0 / 1995840.0)),
    N_6 * (212378941.0 / 319334400.0),
];

/// The series from the latitude on the Gaussian sphere back to the geographic one.
pub(crate) const FROM_SPHERE: [f64; 6] = [
    N * (2.0
        + N * (-2.0 / 3.0
            + N * (-2.0 + N * (116.0 / 45.0 + N * (26.0 / 45.0 + N * (-2854.0 / 675.0)))))),
    N_2 * (7.0 / 3.0
        + N * (-8.0 / 5.0 + N * (-227.0 / 45.0 + N * (2704.0 / 315.0 + N * (2323.0 / 945.0))))),
    N_3 * (56.0 / 15.0 + N * (-136.0 / 35.0 + N * (-1262.0 / 105.0 + N * (73814.0 / 2835.0)))),
    N_4 * (4279.0 / 630.0 + N * (-332.0 / 35.0 + N * (-399572.0 / 14175.0))),
    N_5 * (4174.0 / 315.0 + N * (-144838.0 / 6237.0)),
    N_6 * (601676.0 / 22275.0),
];

/// The series from the transverse Mercator coordinates of the ellipsoid back to those of the sphere.
pub(crate) const FROM_ELLIPSOID: [f64; 6] = [
    N * (-1.0 / 2.0
        + N * (2.0 / 3.0
            + N * (-37.0 / 96.0
                + N * (1.0 / 360.0 + N * (81.0 / 512.0 + N * (-96199.0 / 604800.0)))))),
    N_2 * (-1.0 / 48.0
        + N * (-1.0 / 15.0
            + N * (437.0 / 1440.0 + N * (-46.0 / 105.0 + N * (1118711.0 / 3870720.0))))),
    N_3 * (-17.0 / 480.0 + N * (37.0 / 840.0 + N * (209.0 / 4480.0 + N * (-5569.0 / 90720.0)))),
    N_4 * (-4397.0 / 161280.0 + N * (11.0 / 504.0 + N * (830251.0 / 7257600.0))),
    N_5 * (-4583.0 / 161280.0 + N * (108847.0 / 3991680.0)),
    N_6 * (-20648693.0 / 638668800.0),
];
