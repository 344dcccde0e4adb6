// Maps, made by `maps` of `python/homerange/write/page_map.py`.

/// An animal by its number, its polygons from the highest level on, and its fixes.
#[derive(Clone, Copy)]
pub(crate) struct Drawn {
    pub number: u32,
    pub polygons: &'static [&'static [(i64, i64)]],
    pub fixes: &'static [(i64, i64)],
}

pub(crate) const NEAR: [Drawn; 2] = [
    Drawn {
        number: 1,
        polygons: &[
            &[(100, 200), (520, 240), (480, 610), (150, 560)],
            &[(100, 200), (520, 240), (480, 610)],
        ],
        fixes: &[
            (100, 200),
            (520, 240),
            (480, 610),
            (150, 560),
            (300, 400),
            (310, 390),
        ],
    },
    Drawn {
        number: 2,
        polygons: &[
            &[(400, 500), (900, 520), (880, 800), (420, 780)],
            &[(400, 500), (900, 520)],
        ],
        fixes: &[(400, 500), (900, 520), (880, 800), (420, 780)],
    },
];

pub(crate) const NEAR_RING: [(i64, i64); 4] = [
    (0, 0),
    (1000000, 0),
    (1000250, 900125),
    (0, 900000),
];

pub(crate) const NEAR_MAPS: &str =
    "<svg class=\"map\" viewBox=\"0 0 680.0 439.0\" role=\"img\" aria-label=\"Map of the ranges\">\n\
    <svg x=\"15.0\" y=\"0\" width=\"664.0\" height=\"400.0\">\n\
    <g class=\"grid\">\n\
    <path d=\"M133.6 0.0L133.6 400.0\"/>\n\
    <path d=\"M332.0 0.0L332.0 400.0\"/>\n\
    <path d=\"M530.3 0.0L530.3 400.0\"/>\n\
    <path d=\"M0.0 378.6L664.0 378.6\"/>\n\
    <path d=\"M0.0 180.2L664.0 180.2\"/>\n\
    </g>\n\
    <path class=\"boundary\" d=\"M133.6 378.6L530.3 378.6L530.4 21.4L133.6 21.5Z\"/>\n\
    <path class=\"dots c0\" d=\"M173.2 299.2h0M339.9 283.3h0M324.0 136.5h0M193.1 156.4h0M252.6 219.9h0M256.6 223.8h0\"/>\n\
    <path class=\"dots c1\" d=\"M292.3 180.2h0M490.7 172.3h0M482.7 61.2h0M300.2 69.1h0\"/>\n\
    <path class=\"l0 c0\" d=\"M173.2 299.2L339.9 283.3L324.0 136.5L193.1 156.4Z\"/>\n\
    <path class=\"l0 c1\" d=\"M292.3 180.2L490.7 172.3L482.7 61.2L300.2 69.1Z\"/>\n\
    <path class=\"l1 c0\" d=\"M173.2 299.2L339.9 283.3L324.0 136.5Z\"/>\n\
    <path class=\"flat c1\" d=\"M292.3 180.2L490.7 172.3Z\"/>\n\
    <g font-size=\"11.0\" text-anchor=\"middle\">\n\
    <text x=\"256.6\" y=\"221.7\" class=\"number c0\">1</text>\n\
    <text x=\"391.5\" y=\"172.4\" class=\"number c1\">2</text>\n\
    </g>\n\
    </svg>\n\
    <path class=\"rim\" d=\"M15.0 0h664.0v400.0h-664.0Z\"/>\n\
    <text x=\"148.6\" y=\"411.0\" text-anchor=\"middle\">0</text>\n\
    <text x=\"347.0\" y=\"411.0\" text-anchor=\"middle\">500</text>\n\
    <text x=\"545.3\" y=\"411.0\" text-anchor=\"middle\">1,000</text>\n\
    <text x=\"11.0\" y=\"180.2\" text-anchor=\"middle\" transform=\"rotate(-90 11.0 180.2)\">500</text>\n\
    <path class=\"bar\" d=\"M15.0 424.0v5h79.4v-5\"/>\n\
    <text x=\"100.4\" y=\"429.0\">200 m</text>\n\
    <path class=\"arrow\" d=\"M184.4 431.0v-9h-3.5l3.5 -7l3.5 7h-3.5\"/>\n\
    <text x=\"192.4\" y=\"429.0\">grid north</text>\n\
    <text x=\"679.0\" y=\"429.0\" text-anchor=\"end\">A &amp; B</text>\n\
    </svg>";

pub(crate) const FAR: [Drawn; 5] = [
    Drawn {
        number: 1,
        polygons: &[&[(5000000, 6000000), (5000400, 6000100), (5000200, 6000500)]],
        fixes: &[(5000000, 6000000), (5000400, 6000100), (5000200, 6000500)],
    },
    Drawn {
        number: 3,
        polygons: &[&[(5000300, 6000300), (5000303, 6000301)]],
        fixes: &[(5000300, 6000300), (5000303, 6000301)],
    },
    Drawn {
        number: 4,
        polygons: &[&[(5000100, 6000700), (5000900, 6000700)]],
        fixes: &[(5000100, 6000700), (5000900, 6000700)],
    },
    Drawn {
        number: 12,
        polygons: &[&[(5060005, 6011000)]],
        fixes: &[(5060005, 6011000)],
    },
    Drawn {
        number: 13,
        polygons: &[&[(5060000, 6011000), (5060020, 6011013), (5060017, 6011021)]],
        fixes: &[(5060000, 6011000), (5060020, 6011013), (5060017, 6011021)],
    },
];

pub(crate) const FAR_RING: [(i64, i64); 3] = [(1, 2), (3000, 2), (3000, 4000)];

pub(crate) const FAR_MAPS: &str =
    "<svg class=\"map\" viewBox=\"0 0 680.0 189.0\" role=\"img\" aria-label=\"Map of all ranges\">\n\
    <svg x=\"15.0\" y=\"0\" width=\"664.0\" height=\"150.0\">\n\
    <g class=\"grid\">\n\
    <path d=\"M35.6 0.0L35.6 150.0\"/>\n\
    <path d=\"M85.0 0.0L85.0 150.0\"/>\n\
    <path d=\"M134.3 0.0L134.3 150.0\"/>\n\
    <path d=\"M183.7 0.0L183.7 150.0\"/>\n\
    <path d=\"M233.1 0.0L233.1 150.0\"/>\n\
    <path d=\"M282.5 0.0L282.5 150.0\"/>\n\
    <path d=\"M331.9 0.0L331.9 150.0\"/>\n\
    <path d=\"M381.3 0.0L381.3 150.0\"/>\n\
    <path d=\"M430.7 0.0L430.7 150.0\"/>\n\
    <path d=\"M480.1 0.0L480.1 150.0\"/>\n\
    <path d=\"M529.5 0.0L529.5 150.0\"/>\n\
    <path d=\"M578.8 0.0L578.8 150.0\"/>\n\
    <path d=\"M628.2 0.0L628.2 150.0\"/>\n\
    <path d=\"M0.0 131.4L664.0 131.4\"/>\n\
    <path d=\"M0.0 82.0L664.0 82.0\"/>\n\
    <path d=\"M0.0 32.6L664.0 32.6\"/>\n\
    </g>\n\
    <path class=\"boundary\" d=\"M-19719.7 59397.4Z\"/>\n\
    <path class=\"dots c0\" d=\"M35.6 129.4h0M39.5 128.4h0M37.5 124.5h0\"/>\n\
    <path class=\"dots c2\" d=\"M38.5 126.5h0\"/>\n\
    <path class=\"dots c3\" d=\"M36.6 122.5h0M44.5 122.5h0\"/>\n\
    <path class=\"dots c4\" d=\"M628.3 20.8h0\"/>\n\
    <path class=\"dots c5\" d=\"M628.2 20.8h0\"/>\n\
    <path class=\"l0 c0\" d=\"M35.6 129.4L39.5 128.4L37.5 124.5Z\"/>\n\
    <path class=\"flat c2\" d=\"M38.5 126.5L38.6 126.5Z\"/>\n\
    <path class=\"flat c3\" d=\"M36.6 122.5L44.5 122.5Z\"/>\n\
    <path class=\"flat c4\" d=\"M628.3 20.8Z\"/>\n\
    <path class=\"l0 c5\" d=\"M628.2 20.8L628.4 20.6L628.4 20.6Z\"/>\n\
    <g font-size=\"11.0\" text-anchor=\"middle\">\n\
    <text x=\"37.5\" y=\"130.8\" class=\"number c0\">1</text>\n\
    <text x=\"38.5\" y=\"114.9\" class=\"number c2\">3</text>\n\
    <text x=\"48.2\" y=\"126.4\" class=\"number c3\">4</text>\n\
    <text x=\"628.3\" y=\"16.9\" class=\"number c4\">12</text>\n\
    <text x=\"633.7\" y=\"29.9\" class=\"number c5\">13</text>\n\
    </g>\n\
    </svg>\n\
    <path class=\"rim\" d=\"M15.0 0h664.0v150.0h-664.0Z\"/>\n\
    <text x=\"50.6\" y=\"161.0\" text-anchor=\"middle\">200,000</text>\n\
    <text x=\"100.0\" y=\"161.0\" text-anchor=\"middle\">200,500</text>\n\
    <text x=\"149.3\" y=\"161.0\" text-anchor=\"middle\">201,000</text>\n\
    <text x=\"198.7\" y=\"161.0\" text-anchor=\"middle\">201,500</text>\n\
    <text x=\"248.1\" y=\"161.0\" text-anchor=\"middle\">202,000</text>\n\
    <text x=\"297.5\" y=\"161.0\" text-anchor=\"middle\">202,500</text>\n\
    <text x=\"346.9\" y=\"161.0\" text-anchor=\"middle\">203,000</text>\n\
    <text x=\"396.3\" y=\"161.0\" text-anchor=\"middle\">203,500</text>\n\
    <text x=\"445.7\" y=\"161.0\" text-anchor=\"middle\">204,000</text>\n\
    <text x=\"495.1\" y=\"161.0\" text-anchor=\"middle\">204,500</text>\n\
    <text x=\"544.5\" y=\"161.0\" text-anchor=\"middle\">205,000</text>\n\
    <text x=\"593.8\" y=\"161.0\" text-anchor=\"middle\">205,500</text>\n\
    <text x=\"643.2\" y=\"161.0\" text-anchor=\"middle\">206,000</text>\n\
    <text x=\"11.0\" y=\"82.0\" text-anchor=\"middle\" transform=\"rotate(-90 11.0 82.0)\">600,500</text>\n\
    <text x=\"11.0\" y=\"32.6\" text-anchor=\"middle\" transform=\"rotate(-90 11.0 32.6)\">601,000</text>\n\
    <path class=\"bar\" d=\"M15.0 174.0v5h98.8v-5\"/>\n\
    <text x=\"119.8\" y=\"179.0\">1 km</text>\n\
    <path class=\"arrow\" d=\"M203.8 181.0v-9h-3.5l3.5 -7l3.5 7h-3.5\"/>\n\
    <text x=\"211.8\" y=\"179.0\">grid north</text>\n\
    <text x=\"679.0\" y=\"179.0\" text-anchor=\"end\">A &amp; B</text>\n\
    </svg>\n\
    <svg class=\"map\" viewBox=\"0 0 334.0 286.3\" role=\"img\" aria-label=\"Map of the ranges 1, 3, 4\">\n\
    <svg x=\"15.0\" y=\"0\" width=\"318.0\" height=\"247.3\">\n\
    <g class=\"grid\">\n\
    <path d=\"M17.0 0.0L17.0 247.3\"/>\n\
    <path d=\"M80.1 0.0L80.1 247.3\"/>\n\
    <path d=\"M143.2 0.0L143.2 247.3\"/>\n\
    <path d=\"M206.3 0.0L206.3 247.3\"/>\n\
    <path d=\"M269.4 0.0L269.4 247.3\"/>\n\
    <path d=\"M0.0 234.1L318.0 234.1\"/>\n\
    <path d=\"M0.0 171.0L318.0 171.0\"/>\n\
    <path d=\"M0.0 107.9L318.0 107.9\"/>\n\
    <path d=\"M0.0 44.8L318.0 44.8\"/>\n\
    </g>\n\
    <path class=\"boundary\" d=\"M-630935.3 1893154.3L-630925.9 1893154.3L-630925.9 1893141.7Z\"/>\n\
    <path class=\"dots c0\" d=\"M17.0 234.1h0M143.2 202.5h0M80.1 76.3h0\"/>\n\
    <path class=\"dots c2\" d=\"M111.7 139.4h0M112.6 139.1h0\"/>\n\
    <path class=\"dots c3\" d=\"M48.6 13.3h0M301.0 13.3h0\"/>\n\
    <path class=\"l0 c0\" d=\"M17.0 234.1L143.2 202.5L80.1 76.3Z\"/>\n\
    <path class=\"flat c2\" d=\"M111.7 139.4L112.6 139.1Z\"/>\n\
    <path class=\"flat c3\" d=\"M48.6 13.3L301.0 13.3Z\"/>\n\
    <g font-size=\"11.0\" text-anchor=\"middle\">\n\
    <text x=\"80.1\" y=\"159.1\" class=\"number c0\">1</text>\n\
    <text x=\"112.2\" y=\"135.4\" class=\"number c2\">3</text>\n\
    <text x=\"174.8\" y=\"9.4\" class=\"number c3\">4</text>\n\
    </g>\n\
    </svg>\n\
    <path class=\"rim\" d=\"M15.0 0h318.0v247.3h-318.0Z\"/>\n\
    <text x=\"95.1\" y=\"258.3\" text-anchor=\"middle\">200,020</text>\n\
    <text x=\"158.2\" y=\"258.3\" text-anchor=\"middle\">200,040</text>\n\
    <text x=\"221.3\" y=\"258.3\" text-anchor=\"middle\">200,060</text>\n\
    <text x=\"284.4\" y=\"258.3\" text-anchor=\"middle\">200,080</text>\n\
    <text x=\"11.0\" y=\"171.0\" text-anchor=\"middle\" transform=\"rotate(-90 11.0 171.0)\">600,040</text>\n\
    <text x=\"11.0\" y=\"107.9\" text-anchor=\"middle\" transform=\"rotate(-90 11.0 107.9)\">600,060</text>\n\
    <text x=\"11.0\" y=\"44.8\" text-anchor=\"middle\" transform=\"rotate(-90 11.0 44.8)\">600,080</text>\n\
    <path class=\"bar\" d=\"M15.0 271.3v5h63.1v-5\"/>\n\
    <text x=\"84.1\" y=\"276.3\">20 m</text>\n\
    <path class=\"arrow\" d=\"M168.1 278.3v-9h-3.5l3.5 -7l3.5 7h-3.5\"/>\n\
    <text x=\"176.1\" y=\"276.3\">grid north</text>\n\
    <text x=\"333.0\" y=\"276.3\" text-anchor=\"end\"></text>\n\
    </svg>\n\
    <svg class=\"map\" viewBox=\"0 0 334.0 299.0\" role=\"img\" aria-label=\"Map of the ranges 12, 13\">\n\
    <svg x=\"15.0\" y=\"0\" width=\"318.0\" height=\"260.0\">\n\
    <g class=\"grid\">\n\
    <path d=\"M19.7 0.0L19.7 260.0\"/>\n\
    <path d=\"M135.8 0.0L135.8 260.0\"/>\n\
    <path d=\"M251.9 0.0L251.9 260.0\"/>\n\
    <path d=\"M0.0 154.4L318.0 154.4\"/>\n\
    <path d=\"M0.0 38.3L318.0 38.3\"/>\n\
    </g>\n\
    <path class=\"boundary\" d=\"M-4782007.0 13954725.8L-4781937.4 13954725.8L-4781937.4 13954632.9Z\"/>\n\
    <path class=\"dots c4\" d=\"M147.4 154.4h0\"/>\n\
    <path class=\"dots c5\" d=\"M135.8 154.4h0M182.2 124.2h0M175.3 105.6h0\"/>\n\
    <path class=\"flat c4\" d=\"M147.4 154.4Z\"/>\n\
    <path class=\"l0 c5\" d=\"M135.8 154.4L182.2 124.2L175.3 105.6Z\"/>\n\
    <g font-size=\"11.0\" text-anchor=\"middle\">\n\
    <text x=\"147.4\" y=\"150.5\" class=\"number c4\">12</text>\n\
    <text x=\"159.0\" y=\"133.9\" class=\"number c5\">13</text>\n\
    </g>\n\
    </svg>\n\
    <path class=\"rim\" d=\"M15.0 0h318.0v260.0h-318.0Z\"/>\n\
    <text x=\"150.8\" y=\"271.0\" text-anchor=\"middle\">206,000</text>\n\
    <text x=\"266.9\" y=\"271.0\" text-anchor=\"middle\">206,005</text>\n\
    <text x=\"11.0\" y=\"154.4\" text-anchor=\"middle\" transform=\"rotate(-90 11.0 154.4)\">601,120</text>\n\
    <text x=\"11.0\" y=\"38.3\" text-anchor=\"middle\" transform=\"rotate(-90 11.0 38.3)\">601,125</text>\n\
    <path class=\"bar\" d=\"M15.0 284.0v5h46.4v-5\"/>\n\
    <text x=\"67.4\" y=\"289.0\">2 m</text>\n\
    <path class=\"arrow\" d=\"M151.4 291.0v-9h-3.5l3.5 -7l3.5 7h-3.5\"/>\n\
    <text x=\"159.4\" y=\"289.0\">grid north</text>\n\
    <text x=\"333.0\" y=\"289.0\" text-anchor=\"end\"></text>\n\
    </svg>";
