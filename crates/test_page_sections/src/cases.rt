// Reports, and the sections of their page.

/// A report, and sections of its page.
#[derive(Clone, Copy)]
pub(crate) struct Case {
    pub report: &'static str,
    pub sentences: &'static str,
    pub animals: &'static str,
    pub overlap: &'static str,
    pub overlaps: &'static str,
    pub method: &'static str,
}

pub(crate) const TWO: Case = Case {
    report: "animal,fox,fixes,4\nbox,fox,0,0,400,300\nrow,fox,1,1700000000,1,0\nrow,fox,2,1700003600,2,0\nrow,fox,3,1700007\
    200,3,120000\nrow,fox,4,1700010801,4,240000\ncorner,fox,1,0,0\ncorner,fox,2,400,0\ncorner,fox,3,400,300\ncorne\
    r,fox,4,0,300\npercent,fox,50,2,2,0\npercent,fox,100,4,4,240000\nanimal,owl,fixes,3\nbox,owl,200,100,900,700\
    \nrow,owl,1,1700000000,1,0\nrow,owl,2,1700000108,2,0\nrow,owl,3,1700000208,3,1000\ncorner,owl,1,200,100\ncorne\
    r,owl,2,900,700\ncorner,owl,3,210,110\npercent,owl,50,2,2,0\npercent,owl,100,3,3,1000\noverlap,fox,owl,0,4\nov\
    erlap,owl,fox,2,3\nend,2\n",
    sentences: "<ul class=\"one\">\n<li><bdi>fox</bdi>: 100 % MCP 12.0 ha, 4 fixes, 14 to 15 Nov 2023; 4 fixes of th\
    e export left out; over the last quarter of the days it grew by 50.0 %</li>\n<li><bdi>owl</bdi>: 100 % MCP 500 m\
    ², 3 fixes, 14 Nov 2023; 2 fixes of the export left out; over the last quarter of the days it grew by 100.0 %</l\
    i>\n</ul>",
    animals: "<table id=\"animals\" data-zone=\"UTC\">\n<caption class=\"hidden\">Fixes, times and areas of ea\
    ch animal</caption>\n<thead><tr><th rowspan=\"2\"></th><th scope=\"col\" rowspan=\"2\" class=\"name\">Animal</\
    th><th scope=\"col\" class=\"turned\" rowspan=\"2\"><span>in the export</span></th><th scope=\"colgroup\" cols\
    pan=\"3\">Left out</th><th scope=\"col\" class=\"turned\" rowspan=\"2\"><span>used</span></th><th scope=\"col\
    \" rowspan=\"2\">First</th><th scope=\"col\" rowspan=\"2\">Last</th><th scope=\"col\" rowspan=\"2\">Days</th><\
    th scope=\"colgroup\" colspan=\"2\">Interval</th><th scope=\"colgroup\" colspan=\"2\">MCP, ha</th></tr>\n<tr><\
    th scope=\"col\" class=\"turned\" rowspan=\"1\"><span>marked outlier</span></th><th scope=\"col\" class=\"turn\
    ed\" rowspan=\"1\"><span>no DOP</span></th><th scope=\"col\" class=\"turned\" rowspan=\"1\"><span>too fast</sp\
    an></th><th scope=\"col\">median</th><th scope=\"col\">longest</th><th scope=\"col\" class=\"ha\">50 %</th><t\
    h scope=\"col\" class=\"ha\">100 %</th></tr></thead>\n<tbody>\n<tr data-animal=\"fox\"><td class=\"c0 n\" data\
    -field=\"number\">1</td><th scope=\"row\"><bdi>fox</bdi></th><td data-field=\"records\">8</td><td data-field=\
    \"left_outlier\">1</td><td data-field=\"left_no_dop\">0</td><td data-field=\"left_speed\">3</td><td data-field\
    =\"used\">4</td><td data-field=\"first\">14 Nov 2023</td><td data-field=\"last\">15 Nov 2023</td><td data-fiel\
    d=\"days\">0.1</td><td data-field=\"median_interval\">60 min</td><td data-field=\"longest_interval\">60 min</t\
    d><td data-field=\"hectares_50\">0</td><td data-field=\"hectares_100\">12.0</td></tr>\n<tr data-animal=\"owl\"\
    ><td class=\"c1 n\" data-field=\"number\">2</td><th scope=\"row\"><bdi>owl</bdi></th><td data-field=\"records\
    \">5</td><td data-field=\"left_outlier\">0</td><td data-field=\"left_no_dop\">2</td><td data-field=\"left_spee\
    d\">0</td><td data-field=\"used\">3</td><td data-field=\"first\">14 Nov 2023</td><td data-field=\"last\">14 No\
    v 2023</td><td data-field=\"days\">0.0</td><td data-field=\"median_interval\">2 min</td><td data-field=\"longe\
    st_interval\">2 min</td><td data-field=\"hectares_50\">0</td><td data-field=\"hectares_100\">500 m²</td></tr>\
    \n</tbody></table>",
    overlap: "Pairs of animals that meet: 1 of 1 (a fix of one lies in the 100 % polygon of the other, its edges included)\
    . Most of all <bdi>owl</bdi>: 2 (67 %) of its 3 fixes in the range of <bdi>fox</bdi>.",
    overlaps: "<p class=\"note\">Rows: whose fixes. Columns: in the range of the animal with this number.</p>\n\
    <table id=\"overlaps\"><caption class=\"hidden\">Fixes of one animal in the range of another</caption><thead><\
    tr><th></th><th scope=\"col\" class=\"name\">Fixes of</th><th scope=\"col\" class=\"c0\">1</th><th scope=\"col\
    \" class=\"c1\">2</th></tr></thead>\n<tbody>\n<tr><td class=\"c0 n\">1</td><th scope=\"row\"><bdi>fox</bdi></t\
    h><td>–</td><td data-animal=\"fox\" data-other=\"owl\">0</td></tr>\n<tr><td class=\"c1 n\">2</td><th scope=\"r\
    ow\"><bdi>owl</bdi></th><td data-animal=\"owl\" data-other=\"fox\">2 (67 %)</td><td>–</td></tr>\n</tbody></tab\
    le>",
    method: "Home ranges are minimum convex polygons (MCP) of 100 % and 50 % of the fixes; that of all fixes is the \
    one of Mohr (1947). They were computed by homerange 1.0.0 from coordinates in whole metres, EPSG:32633 (WGS 84 / \
    UTM zone 33N). Of n fixes, the polygon at p % has the p per cent of n, rounded up to whole fixes, that lie neare\
    st to the arithmetic mean of all (of fixes as near, the earlier). Areas are those on the grid. Here they are rou\
    nded, halves up, to whole hectares, below 100 hectares to three digits, and below 1 hectare they are in square m\
    etres. The area of the 100 % polygon was followed fix by fix (incremental area analysis, Harris et al. 1990).",
};

pub(crate) const NAMES: Case = Case {
    report: "animal,=1+1,fixes,3\nbox,=1+1,0,0,1,1\nrow,=1+1,1,1700000000,1,0\nrow,=1+1,2,1700000001,2,0\nrow,=1+1,3,170000\
    0003,3,1\ncorner,=1+1,1,0,0\ncorner,=1+1,2,1,0\ncorner,=1+1,3,0,1\npercent,=1+1,100,3,3,1\nanimal,'o b,fixes,3\
    \nbox,'o b,0,0,5,3\nrow,'o b,1,1700000000,1,0\nrow,'o b,2,1700000001,2,0\nrow,'o b,3,1700000003,3,15\ncorner,'\
    o b,1,0,0\ncorner,'o b,2,5,0\ncorner,'o b,3,0,3\npercent,'o b,100,3,3,15\nanimal,@x,fixes,1\nbox,@x,5,5,5,5\nr\
    ow,@x,1,1700000000,1,0\ncorner,@x,1,5,5\npercent,@x,100,1,1,0\noverlap,=1+1,'o b,3,3\noverlap,=1+1,@x,0,3\nove\
    rlap,'o b,=1+1,1,3\noverlap,'o b,@x,0,3\noverlap,@x,=1+1,0,1\noverlap,@x,'o b,0,1\nend,3\n",
    sentences: "<ul class=\"one\">\n<li><bdi>=1+1</bdi>: 100 % MCP 0.50 m², 3 fixes, 14 Nov 2023; over the last quar\
    ter of the days it grew by 100.0 %</li>\n<li><bdi>&#x27;o b</bdi>: 100 % MCP 7.50 m², 3 fixes, 14 Nov 2023; over \
    the last quarter of the days it grew by 100.0 %</li>\n<li><bdi>@x</bdi>: 100 % MCP has no area, 1 fix, 14 Nov 20\
    23</li>\n</ul>",
    animals: "<table id=\"animals\" data-zone=\"UTC\">\n<caption class=\"hidden\">Fixes, times and areas of ea\
    ch animal</caption>\n<thead><tr><th rowspan=\"2\"></th><th scope=\"col\" rowspan=\"2\" class=\"name\">Animal</\
    th><th scope=\"col\" class=\"turned\" rowspan=\"2\"><span>in the data</span></th><th scope=\"col\" class=\"tur\
    ned\" rowspan=\"2\"><span>used</span></th><th scope=\"col\" rowspan=\"2\">First</th><th scope=\"col\" rowspan=\
    \"2\">Last</th><th scope=\"col\" rowspan=\"2\">Days</th><th scope=\"colgroup\" colspan=\"2\">Interval</th><th \
    scope=\"colgroup\" colspan=\"1\">MCP, ha</th></tr>\n<tr><th scope=\"col\">median</th><th scope=\"col\">longest\
    </th><th scope=\"col\" class=\"ha\">100 %</th></tr></thead>\n<tbody>\n<tr data-animal=\"=1+1\"><td class=\"c0 \
    n\" data-field=\"number\">1</td><th scope=\"row\"><bdi>=1+1</bdi></th><td data-field=\"records\">–</td><td dat\
    a-field=\"used\">3</td><td data-field=\"first\">14 Nov 2023</td><td data-field=\"last\">14 Nov 2023</td><td da\
    ta-field=\"days\">0.0</td><td data-field=\"median_interval\">2 s</td><td data-field=\"longest_interval\">2 s</\
    td><td data-field=\"hectares_100\">0.50 m²</td></tr>\n<tr data-animal=\"&#x27;o b\"><td class=\"c1 n\" data-fi\
    eld=\"number\">2</td><th scope=\"row\"><bdi>&#x27;o b</bdi></th><td data-field=\"records\">–</td><td data-fiel\
    d=\"used\">3</td><td data-field=\"first\">14 Nov 2023</td><td data-field=\"last\">14 Nov 2023</td><td data-fie\
    ld=\"days\">0.0</td><td data-field=\"median_interval\">2 s</td><td data-field=\"longest_interval\">2 s</td><t\
    d data-field=\"hectares_100\">7.50 m²</td></tr>\n<tr data-animal=\"@x\"><td class=\"c2 n\" data-field=\"number\
    \">3</td><th scope=\"row\"><bdi>@x</bdi></th><td data-field=\"records\">–</td><td data-field=\"used\">1</td><t\
    d data-field=\"first\">14 Nov 2023</td><td data-field=\"last\">14 Nov 2023</td><td data-field=\"days\">0.0</td\
    ><td data-field=\"median_interval\">–</td><td data-field=\"longest_interval\">–</td><td data-field=\"hectares_\
    100\">0</td></tr>\n</tbody></table>",
    overlap: "Pairs of animals that meet: 1 of 3 (a fix of one lies in the 100 % polygon of the other, its edges included)\
    . Most of all <bdi>=1+1</bdi>: 3 (100 %) of its 3 fixes in the range of <bdi>&#x27;o b</bdi>.",
    overlaps: "<p class=\"note\">Rows: whose fixes. Columns: in the range of the animal with this number.</p>\n\
    <table id=\"overlaps\"><caption class=\"hidden\">Fixes of one animal in the range of another</caption><thead><\
    tr><th></th><th scope=\"col\" class=\"name\">Fixes of</th><th scope=\"col\" class=\"c0\">1</th><th scope=\"col\
    \" class=\"c1\">2</th><th scope=\"col\" class=\"c2\">3</th></tr></thead>\n<tbody>\n<tr><td class=\"c0 n\">1</t\
    d><th scope=\"row\"><bdi>=1+1</bdi></th><td>–</td><td data-animal=\"=1+1\" data-other=\"&#x27;o b\">3 (100 %)<\
    /td><td data-animal=\"=1+1\" data-other=\"@x\">0</td></tr>\n<tr><td class=\"c1 n\">2</td><th scope=\"row\"><bd\
    i>&#x27;o b</bdi></th><td data-animal=\"&#x27;o b\" data-other=\"=1+1\">1 (33 %)</td><td>–</td><td data-animal\
    =\"&#x27;o b\" data-other=\"@x\">0</td></tr>\n<tr><td class=\"c2 n\">3</td><th scope=\"row\"><bdi>@x</bdi></th\
    ><td data-animal=\"@x\" data-other=\"=1+1\">0</td><td data-animal=\"@x\" data-other=\"&#x27;o b\">0</td><td>–<\
    /td></tr>\n</tbody></table>",
    method: "Home ranges are minimum convex polygons (MCP) of 100 % of the fixes; that of all fixes is the one of M\
    ohr (1947). They were computed by homerange 1.0.0 from coordinates in whole metres, EPSG:32633 (WGS 84 / UTM zon\
    e 33N). Of n fixes, the polygon at p % has the p per cent of n, rounded up to whole fixes, that lie nearest to t\
    he arithmetic mean of all (of fixes as near, the earlier). Areas are those on the grid. Here they are rounded, h\
    alves up, to whole hectares, below 100 hectares to three digits, and below 1 hectare they are in square metres. \
    The area of the 100 % polygon was followed fix by fix (incremental area analysis, Harris et al. 1990).",
};

pub(crate) const DECIMETRES: Case = Case {
    report: "unit,dm\nanimal,fox,fixes,6\nbox,fox,5000000,50000000,5000020,50000020\nrow,fox,1,1700000000,1,0\nrow,fox,2,17\
    00000060,2,0\nrow,fox,3,1700000120,3,115\nrow,fox,4,1700000180,4,283\nrow,fox,5,1700000240,5,349\nrow,fox,6,17\
    00000300,4,542\ncorner,fox,1,5000000,50000000\ncorner,fox,2,5000014,50000001\ncorner,fox,3,5000020,50000018\nc\
    orner,fox,4,5000005,50000020\npercent,fox,50,3,3,103\npercent,fox,95,6,4,542\npercent,fox,100,6,4,542\nanimal,\
    owl,fixes,16\nbox,owl,5000000,50000000,5002475,50002925\nrow,owl,1,1700000000,1,0\nrow,owl,2,1700000061,2,0\nr\
    ow,owl,3,1700000122,2,0\nrow,owl,4,1700000183,2,0\nrow,owl,5,1700000244,2,0\nrow,owl,6,1700000305,2,0\nrow,owl\
    ,7,1700000366,2,0\nrow,owl,8,1700000427,2,0\nrow,owl,9,1700000488,2,0\nrow,owl,10,1700000549,2,0\nrow,owl,11,1\
    700000610,2,0\nrow,owl,12,1700000671,2,0\nrow,owl,13,1700000732,2,0\nrow,owl,14,1700000793,2,0\nrow,owl,15,170\
    0000854,2,0\nrow,owl,16,1700000915,2,0\ncorner,owl,1,5000000,50000000\ncorner,owl,2,5002475,50002925\npercent,\
    owl,50,8,2,0\npercent,owl,95,16,2,0\npercent,owl,100,16,2,0\nanimal,cat,fixes,4\nbox,cat,5000000,50000000,5000\
    002,50000001\nrow,cat,1,1700000000,1,0\nrow,cat,2,1700000001,2,0\nrow,cat,3,1700000004,3,1\nrow,cat,4,17000000\
    09,4,3\ncorner,cat,1,5000000,50000000\ncorner,cat,2,5000001,50000000\ncorner,cat,3,5000002,50000001\ncorner,ca\
    t,4,5000000,50000001\npercent,cat,50,2,2,0\npercent,cat,95,4,4,3\npercent,cat,100,4,4,3\noverlap,fox,owl,1,6\
    \noverlap,fox,cat,1,6\noverlap,owl,fox,2,16\noverlap,owl,cat,1,16\noverlap,cat,fox,2,4\noverlap,cat,owl,1,4\ne\
    nd,3\n",
    sentences: "<ul class=\"one\">\n<li><bdi>fox</bdi>: 95 % MCP 2.71 m², all 6 fixes, 14 Nov 2023</li>\n<li><bdi>ow\
    l</bdi>: 95 % MCP has no area, all 16 fixes, 14 Nov 2023</li>\n<li><bdi>cat</bdi>: 95 % MCP 0.02 m², all 4 fixes\
    , 14 Nov 2023</li>\n</ul>",
    animals: "<table id=\"animals\" data-zone=\"UTC\">\n<caption class=\"hidden\">Fixes, times and areas of ea\
    ch animal</caption>\n<thead><tr><th rowspan=\"2\"></th><th scope=\"col\" rowspan=\"2\" class=\"name\">Animal</\
    th><th scope=\"col\" class=\"turned\" rowspan=\"2\"><span>in the data</span></th><th scope=\"col\" class=\"tur\
    ned\" rowspan=\"2\"><span>used</span></th><th scope=\"col\" rowspan=\"2\">First</th><th scope=\"col\" rowspan=\
    \"2\">Last</th><th scope=\"col\" rowspan=\"2\">Days</th><th scope=\"colgroup\" colspan=\"2\">Interval</th><th \
    scope=\"colgroup\" colspan=\"3\">MCP, ha</th></tr>\n<tr><th scope=\"col\">median</th><th scope=\"col\">longest\
    </th><th scope=\"col\" class=\"ha\">50 %</th><th scope=\"col\" class=\"ha\">95 %</th><th scope=\"col\" class=\
    \"ha\">100 %</th></tr></thead>\n<tbody>\n<tr data-animal=\"fox\"><td class=\"c0 n\" data-field=\"number\">1</t\
    d><th scope=\"row\"><bdi>fox</bdi></th><td data-field=\"records\">–</td><td data-field=\"used\">6</td><td data\
    -field=\"first\">14 Nov 2023</td><td data-field=\"last\">14 Nov 2023</td><td data-field=\"days\">0.0</td><td d\
    ata-field=\"median_interval\">60 s</td><td data-field=\"longest_interval\">60 s</td><td data-field=\"hectares_\
    50\">0.52 m²</td><td data-field=\"hectares_95\">2.71 m²</td><td data-field=\"hectares_100\">2.71 m²</td></tr>\
    \n<tr data-animal=\"owl\"><td class=\"c1 n\" data-field=\"number\">2</td><th scope=\"row\"><bdi>owl</bdi></th>\
    <td data-field=\"records\">–</td><td data-field=\"used\">16</td><td data-field=\"first\">14 Nov 2023</td><td d\
    ata-field=\"last\">14 Nov 2023</td><td data-field=\"days\">0.0</td><td data-field=\"median_interval\">61 s</td\
    ><td data-field=\"longest_interval\">61 s</td><td data-field=\"hectares_50\">0</td><td data-field=\"hectares_9\
    5\">0</td><td data-field=\"hectares_100\">0</td></tr>\n<tr data-animal=\"cat\"><td class=\"c2 n\" data-field=\
    \"number\">3</td><th scope=\"row\"><bdi>cat</bdi></th><td data-field=\"records\">–</td><td data-field=\"used\"\
    >4</td><td data-field=\"first\">14 Nov 2023</td><td data-field=\"last\">14 Nov 2023</td><td data-field=\"days\
    \">0.0</td><td data-field=\"median_interval\">3 s</td><td data-field=\"longest_interval\">5 s</td><td data-fie\
    ld=\"hectares_50\">0</td><td data-field=\"hectares_95\">0.02 m²</td><td data-field=\"hectares_100\">0.02 m²</t\
    d></tr>\n</tbody></table>",
    overlap: "Pairs of animals that meet: 3 of 3 (a fix of one lies in the 100 % polygon of the other, its edges included)\
    . Most of all <bdi>cat</bdi>: 2 (50 %) of its 4 fixes in the range of <bdi>fox</bdi>.",
    overlaps: "<p class=\"note\">Rows: whose fixes. Columns: in the range of the animal with this number.</p>\n\
    <table id=\"overlaps\"><caption class=\"hidden\">Fixes of one animal in the range of another</caption><thead><\
    tr><th></th><th scope=\"col\" class=\"name\">Fixes of</th><th scope=\"col\" class=\"c0\">1</th><th scope=\"col\
    \" class=\"c1\">2</th><th scope=\"col\" class=\"c2\">3</th></tr></thead>\n<tbody>\n<tr><td class=\"c0 n\">1</t\
    d><th scope=\"row\"><bdi>fox</bdi></th><td>–</td><td data-animal=\"fox\" data-other=\"owl\">1 (17 %)</td><td d\
    ata-animal=\"fox\" data-other=\"cat\">1 (17 %)</td></tr>\n<tr><td class=\"c1 n\">2</td><th scope=\"row\"><bdi>\
    owl</bdi></th><td data-animal=\"owl\" data-other=\"fox\">2 (13 %)</td><td>–</td><td data-animal=\"owl\" data-o\
    ther=\"cat\">1 (6 %)</td></tr>\n<tr><td class=\"c2 n\">3</td><th scope=\"row\"><bdi>cat</bdi></th><td data-ani\
    mal=\"cat\" data-other=\"fox\">2 (50 %)</td><td data-animal=\"cat\" data-other=\"owl\">1 (25 %)</td><td>–</td>\
    </tr>\n</tbody></table>",
    method: "Home ranges are minimum convex polygons (MCP) of 100 %, 95 % and 50 % of the fixes; that of all fixes \
    is the one of Mohr (1947). They were computed by homerange 1.0.0 from coordinates in whole decimetres, EPSG:3263\
    3 (WGS 84 / UTM zone 33N). Of n fixes, the polygon at p % has the p per cent of n, rounded up to whole fixes, th\
    at lie nearest to the arithmetic mean of all (of fixes as near, the earlier). Areas are those on the grid. Here \
    they are rounded, halves up, to whole hectares, below 100 hectares to three digits, and below 1 hectare they are \
    in square metres. The area of the 100 % polygon was followed fix by fix (incremental area analysis, Harris et al\
    . 1990).",
};

pub(crate) const SECONDS: Case = Case {
    report: "animal,fox,fixes,4\nbox,fox,0,0,400,300\nrow,fox,1,0,1,0\nrow,fox,2,86400,2,0\nrow,fox,3,864001,3,120000\nrow,\
    fox,4,9223372035,4,240000\ncorner,fox,1,0,0\ncorner,fox,2,400,0\ncorner,fox,3,400,300\ncorner,fox,4,0,300\nper\
    cent,fox,100,4,4,240000\nanimal,owl,fixes,3\nbox,owl,200,0,900,900\nrow,owl,1,5,1,0\nrow,owl,2,9223372036,2,0\
    \nrow,owl,3,1099511627776,3,560000\ncorner,owl,1,200,100\ncorner,owl,2,900,0\ncorner,owl,3,200,900\npercent,ow\
    l,100,3,3,560000\noverlap,fox,owl,1,4\noverlap,owl,fox,1,3\nend,2\n",
    sentences: "<ul class=\"one\">\n<li><bdi>fox</bdi>: 100 % MCP 12.0 ha, 4 fixes, day 1 to 106752; over the last q\
    uarter of the days it grew by 50.0 %</li>\n<li><bdi>owl</bdi>: 100 % MCP 28.0 ha, 3 fixes, day 1 to 12725830; ov\
    er the last quarter of the days it grew by 100.0 %</li>\n</ul>",
    animals: "<table id=\"animals\" data-zone=\"UTC\">\n<caption class=\"hidden\">Fixes, times and areas of ea\
    ch animal</caption>\n<thead><tr><th rowspan=\"2\"></th><th scope=\"col\" rowspan=\"2\" class=\"name\">Animal</\
    th><th scope=\"col\" class=\"turned\" rowspan=\"2\"><span>in the data</span></th><th scope=\"col\" class=\"tur\
    ned\" rowspan=\"2\"><span>used</span></th><th scope=\"col\" rowspan=\"2\">First</th><th scope=\"col\" rowspan=\
    \"2\">Last</th><th scope=\"col\" rowspan=\"2\">Days</th><th scope=\"colgroup\" colspan=\"2\">Interval</th><th \
    scope=\"colgroup\" colspan=\"1\">MCP, ha</th></tr>\n<tr><th scope=\"col\">median</th><th scope=\"col\">longest\
    </th><th scope=\"col\" class=\"ha\">100 %</th></tr></thead>\n<tbody>\n<tr data-animal=\"fox\"><td class=\"c0 n\
    \" data-field=\"number\">1</td><th scope=\"row\"><bdi>fox</bdi></th><td data-field=\"records\">–</td><td data-\
    field=\"used\">4</td><td data-field=\"first\">day 1</td><td data-field=\"last\">day 106752</td><td data-field=\
    \"days\">106,752</td><td data-field=\"median_interval\">9.0 d</td><td data-field=\"longest_interval\">106,742.\
    0 d</td><td data-field=\"hectares_100\">12.0</td></tr>\n<tr data-animal=\"owl\"><td class=\"c1 n\" data-field=\
    \"number\">2</td><th scope=\"row\"><bdi>owl</bdi></th><td data-field=\"records\">–</td><td data-field=\"used\"\
    >3</td><td data-field=\"first\">day 1</td><td data-field=\"last\">day 12725830</td><td data-field=\"days\">12,\
    725,829</td><td data-field=\"median_interval\">6,362,914.5 d</td><td data-field=\"longest_interval\">12,619,07\
    7.0 d</td><td data-field=\"hectares_100\">28.0</td></tr>\n</tbody></table>",
    overlap: "Pairs of animals that meet: 1 of 1 (a fix of one lies in the 100 % polygon of the other, its edges included)\
    . Most of all <bdi>owl</bdi>: 1 (33 %) of its 3 fixes in the range of <bdi>fox</bdi>.",
    overlaps: "<p class=\"note\">Rows: whose fixes. Columns: in the range of the animal with this number.</p>\n\
    <table id=\"overlaps\"><caption class=\"hidden\">Fixes of one animal in the range of another</caption><thead><\
    tr><th></th><th scope=\"col\" class=\"name\">Fixes of</th><th scope=\"col\" class=\"c0\">1</th><th scope=\"col\
    \" class=\"c1\">2</th></tr></thead>\n<tbody>\n<tr><td class=\"c0 n\">1</td><th scope=\"row\"><bdi>fox</bdi></t\
    h><td>–</td><td data-animal=\"fox\" data-other=\"owl\">1 (25 %)</td></tr>\n<tr><td class=\"c1 n\">2</td><th sc\
    ope=\"row\"><bdi>owl</bdi></th><td data-animal=\"owl\" data-other=\"fox\">1 (33 %)</td><td>–</td></tr>\n</tbod\
    y></table>",
    method: "Home ranges are minimum convex polygons (MCP) of 100 % of the fixes; that of all fixes is the one of M\
    ohr (1947). They were computed by homerange 1.0.0 from coordinates in whole metres, EPSG:32633 (WGS 84 / UTM zon\
    e 33N). Of n fixes, the polygon at p % has the p per cent of n, rounded up to whole fixes, that lie nearest to t\
    he arithmetic mean of all (of fixes as near, the earlier). Areas are those on the grid. Here they are rounded, h\
    alves up, to whole hectares, below 100 hectares to three digits, and below 1 hectare they are in square metres. \
    The area of the 100 % polygon was followed fix by fix (incremental area analysis, Harris et al. 1990).",
};

pub(crate) const MANY_LEVELS: Case = Case {
    report: "animal,fox,fixes,12\nbox,fox,500000,5000000,500094,5000087\nrow,fox,1,1700000000,1,0\nrow,fox,2,1700003600,2,0\
    \nrow,fox,3,1700007200,3,3293\nrow,fox,4,1700010800,4,5353\nrow,fox,5,1700014400,4,5353\nrow,fox,6,1700018000,\
    4,10020\nrow,fox,7,1700021600,4,10020\nrow,fox,8,1700025200,4,10020\nrow,fox,9,1700028800,5,10910\nrow,fox,10,\
    1700032400,5,10910\nrow,fox,11,1700036000,6,11051\nrow,fox,12,1700039600,7,11331\ncorner,fox,1,500000,5000000\
    \ncorner,fox,2,500074,5000017\ncorner,fox,3,500094,5000068\ncorner,fox,4,500084,5000087\ncorner,fox,5,500067,5\
    000085\ncorner,fox,6,500010,5000070\ncorner,fox,7,500003,5000049\npercent,fox,10,2,2,0\npercent,fox,20,3,2,0\
    \npercent,fox,30,4,2,0\npercent,fox,40,5,2,0\npercent,fox,50,6,2,0\npercent,fox,60,8,2,0\npercent,fox,95,12,7,\
    11331\npercent,fox,100,12,7,11331\nend,1\n",
    sentences: "<ul class=\"one\">\n<li><bdi>fox</bdi>: 95 % MCP 5,666 m², all 12 fixes, 14 to 15 Nov 2023</li>\n</u\
    l>",
    animals: "<table id=\"animals\" data-zone=\"UTC\">\n<caption class=\"hidden\">Fixes, times and areas of ea\
    ch animal</caption>\n<thead><tr><th rowspan=\"2\"></th><th scope=\"col\" rowspan=\"2\" class=\"name\">Animal</\
    th><th scope=\"col\" class=\"turned\" rowspan=\"2\"><span>in the data</span></th><th scope=\"col\" class=\"tur\
    ned\" rowspan=\"2\"><span>used</span></th><th scope=\"col\" rowspan=\"2\">First</th><th scope=\"col\" rowspan=\
    \"2\">Last</th><th scope=\"col\" rowspan=\"2\">Days</th><th scope=\"colgroup\" colspan=\"2\">Interval</th></tr\
    >\n<tr><th scope=\"col\">median</th><th scope=\"col\">longest</th></tr></thead>\n<tbody>\n<tr data-animal=\"fo\
    x\"><td class=\"c0 n\" data-field=\"number\">1</td><th scope=\"row\"><bdi>fox</bdi></th><td data-field=\"recor\
    ds\">–</td><td data-field=\"used\">12</td><td data-field=\"first\">14 Nov 2023</td><td data-field=\"last\">15 \
    Nov 2023</td><td data-field=\"days\">0.5</td><td data-field=\"median_interval\">60 min</td><td data-field=\"lo\
    ngest_interval\">60 min</td></tr>\n</tbody></table>\n<table id=\"areas\"><caption class=\"hidden\">Areas at ea\
    ch level</caption><thead><tr><th rowspan=\"2\"></th><th scope=\"col\" rowspan=\"2\" class=\"name\">Animal</th>\
    <th scope=\"colgroup\" colspan=\"8\">MCP, ha</th></tr>\n<tr><th scope=\"col\" class=\"ha\">10 %</th><th scope=\
    \"col\" class=\"ha\">20 %</th><th scope=\"col\" class=\"ha\">30 %</th><th scope=\"col\" class=\"ha\">40 %</th>\
    <th scope=\"col\" class=\"ha\">50 %</th><th scope=\"col\" class=\"ha\">60 %</th><th scope=\"col\" class=\"ha\"\
    >95 %</th><th scope=\"col\" class=\"ha\">100 %</th></tr></thead>\n<tbody>\n<tr data-animal=\"fox\"><td class=\
    \"c0 n\" data-field=\"number\">1</td><th scope=\"row\"><bdi>fox</bdi></th><td data-field=\"hectares_10\">0</td\
    ><td data-field=\"hectares_20\">0</td><td data-field=\"hectares_30\">0</td><td data-field=\"hectares_40\">0</t\
    d><td data-field=\"hectares_50\">0</td><td data-field=\"hectares_60\">0</td><td data-field=\"hectares_95\">5,6\
    66 m²</td><td data-field=\"hectares_100\">5,666 m²</td></tr>\n</tbody></table>",
    overlap: "There is one animal, and so no overlap.",
    overlaps: "",
    method: "Home ranges are minimum convex polygons (MCP) of 100 %, 95 %, 60 %, 50 %, 40 %, 30 %, 20 % and 10 % of \
    the fixes; that of all fixes is the one of Mohr (1947). They were computed by homerange 1.0.0 from coordinates i\
    n whole metres, EPSG:32633 (WGS 84 / UTM zone 33N). Of n fixes, the polygon at p % has the p per cent of n, roun\
    ded up to whole fixes, that lie nearest to the arithmetic mean of all (of fixes as near, the earlier). Areas are \
    those on the grid. Here they are rounded, halves up, to whole hectares, below 100 hectares to three digits, and \
    below 1 hectare they are in square metres. The area of the 100 % polygon was followed fix by fix (incremental ar\
    ea analysis, Harris et al. 1990).",
};

// Of thirteen animals, of which those with even numbers lie at one place.
pub(crate) const PAIRS_OF_THIRTEEN: (&str, &str) = (
    "Pairs of animals that meet: 21 of 78 (a fix of one lies in the 100 % polygon of the other, its edges included)\
    . Most of all <bdi>a0</bdi>: 3 (100 %) of its 3 fixes in the range of <bdi>a2</bdi>.",
    "<p class=\"note\">Pairs are sorted by the greater of both shares.</p>\n<table id=\"overlaps\"><c\
    aption class=\"hidden\">Fixes of one animal in the range of another</caption><thead><tr><th></th><th scope=\"c\
    ol\" class=\"name\">A</th><th></th><th scope=\"col\" class=\"name\">B</th><th scope=\"col\">fixes of A in the \
    range of B</th><th scope=\"col\">fixes of B in the range of A</th></tr></thead>\n<tbody>\n<tr><td class=\"c0 n\
    \">1</td><th scope=\"row\"><bdi>a0</bdi></th><td class=\"c2 n\">3</td><th scope=\"row\"><bdi>a2</bdi></th><td \
    data-animal=\"a0\" data-other=\"a2\">3 (100 %)</td><td data-animal=\"a2\" data-other=\"a0\">3 (100 %)</td></tr\
    >\n<tr><td class=\"c0 n\">1</td><th scope=\"row\"><bdi>a0</bdi></th><td class=\"c1 n\">9</td><th scope=\"row\"\
    ><bdi>a8</bdi></th><td data-animal=\"a0\" data-other=\"a8\">3 (100 %)</td><td data-animal=\"a8\" data-other=\"\
    a0\">3 (100 %)</td></tr>\n<tr><td class=\"c2 n\">3</td><th scope=\"row\"><bdi>a2</bdi></th><td class=\"c6 n\">\
    7</td><th scope=\"row\"><bdi>a6</bdi></th><td data-animal=\"a2\" data-other=\"a6\">3 (100 %)</td><td data-anim\
    al=\"a6\" data-other=\"a2\">3 (100 %)</td></tr>\n<tr><td class=\"c2 n\">3</td><th scope=\"row\"><bdi>a2</bdi><\
    /th><td class=\"c5 n\">13</td><th scope=\"row\"><bdi>a12</bdi></th><td data-animal=\"a2\" data-other=\"a12\">\
    3 (100 %)</td><td data-animal=\"a12\" data-other=\"a2\">3 (100 %)</td></tr>\n<tr><td class=\"c4 n\">5</td><th \
    scope=\"row\"><bdi>a4</bdi></th><td class=\"c3 n\">11</td><th scope=\"row\"><bdi>a10</bdi></th><td data-animal\
    =\"a4\" data-other=\"a10\">3 (100 %)</td><td data-animal=\"a10\" data-other=\"a4\">3 (100 %)</td></tr>\n<tr><t\
    d class=\"c6 n\">7</td><th scope=\"row\"><bdi>a6</bdi></th><td class=\"c1 n\">9</td><th scope=\"row\"><bdi>a8<\
    /bdi></th><td data-animal=\"a6\" data-other=\"a8\">3 (100 %)</td><td data-animal=\"a8\" data-other=\"a6\">3 (1\
    00 %)</td></tr>\n<tr><td class=\"c1 n\">9</td><th scope=\"row\"><bdi>a8</bdi></th><td class=\"c5 n\">13</td><t\
    h scope=\"row\"><bdi>a12</bdi></th><td data-animal=\"a8\" data-other=\"a12\">3 (100 %)</td><td data-animal=\"a\
    12\" data-other=\"a8\">3 (100 %)</td></tr>\n<tr><td class=\"c0 n\">1</td><th scope=\"row\"><bdi>a0</bdi></th><\
    td class=\"c4 n\">5</td><th scope=\"row\"><bdi>a4</bdi></th><td data-animal=\"a0\" data-other=\"a4\">2 (67 %)<\
    /td><td data-animal=\"a4\" data-other=\"a0\">2 (67 %)</td></tr>\n<tr><td class=\"c0 n\">1</td><th scope=\"row\
    \"><bdi>a0</bdi></th><td class=\"c3 n\">11</td><th scope=\"row\"><bdi>a10</bdi></th><td data-animal=\"a0\" dat\
    a-other=\"a10\">2 (67 %)</td><td data-animal=\"a10\" data-other=\"a0\">2 (67 %)</td></tr>\n<tr><td class=\"c2 \
    n\">3</td><th scope=\"row\"><bdi>a2</bdi></th><td class=\"c1 n\">9</td><th scope=\"row\"><bdi>a8</bdi></th><t\
    d data-animal=\"a2\" data-other=\"a8\">2 (67 %)</td><td data-animal=\"a8\" data-other=\"a2\">2 (67 %)</td></tr\
    >\n<tr><td class=\"c4 n\">5</td><th scope=\"row\"><bdi>a4</bdi></th><td class=\"c6 n\">7</td><th scope=\"row\"\
    ><bdi>a6</bdi></th><td data-animal=\"a4\" data-other=\"a6\">2 (67 %)</td><td data-animal=\"a6\" data-other=\"a\
    4\">2 (67 %)</td></tr>\n<tr><td class=\"c4 n\">5</td><th scope=\"row\"><bdi>a4</bdi></th><td class=\"c5 n\">13\
    </td><th scope=\"row\"><bdi>a12</bdi></th><td data-animal=\"a4\" data-other=\"a12\">2 (67 %)</td><td data-anim\
    al=\"a12\" data-other=\"a4\">2 (67 %)</td></tr>\n<tr><td class=\"c6 n\">7</td><th scope=\"row\"><bdi>a6</bdi><\
    /th><td class=\"c3 n\">11</td><th scope=\"row\"><bdi>a10</bdi></th><td data-animal=\"a6\" data-other=\"a10\">\
    2 (67 %)</td><td data-animal=\"a10\" data-other=\"a6\">2 (67 %)</td></tr>\n<tr><td class=\"c3 n\">11</td><th s\
    cope=\"row\"><bdi>a10</bdi></th><td class=\"c5 n\">13</td><th scope=\"row\"><bdi>a12</bdi></th><td data-animal\
    =\"a10\" data-other=\"a12\">2 (67 %)</td><td data-animal=\"a12\" data-other=\"a10\">2 (67 %)</td></tr>\n<tr><t\
    d class=\"c0 n\">1</td><th scope=\"row\"><bdi>a0</bdi></th><td class=\"c6 n\">7</td><th scope=\"row\"><bdi>a6<\
    /bdi></th><td data-animal=\"a0\" data-other=\"a6\">1 (33 %)</td><td data-animal=\"a6\" data-other=\"a0\">1 (33\
     %)</td></tr>\n<tr><td class=\"c0 n\">1</td><th scope=\"row\"><bdi>a0</bdi></th><td class=\"c5 n\">13</td><th \
    scope=\"row\"><bdi>a12</bdi></th><td data-animal=\"a0\" data-other=\"a12\">1 (33 %)</td><td data-animal=\"a12\
    \" data-other=\"a0\">1 (33 %)</td></tr>\n<tr><td class=\"c2 n\">3</td><th scope=\"row\"><bdi>a2</bdi></th><td \
    class=\"c4 n\">5</td><th scope=\"row\"><bdi>a4</bdi></th><td data-animal=\"a2\" data-other=\"a4\">1 (33 %)</td\
    ><td data-animal=\"a4\" data-other=\"a2\">1 (33 %)</td></tr>\n<tr><td class=\"c2 n\">3</td><th scope=\"row\"><\
    bdi>a2</bdi></th><td class=\"c3 n\">11</td><th scope=\"row\"><bdi>a10</bdi></th><td data-animal=\"a2\" data-ot\
    her=\"a10\">1 (33 %)</td><td data-animal=\"a10\" data-other=\"a2\">1 (33 %)</td></tr>\n<tr><td class=\"c4 n\">\
    5</td><th scope=\"row\"><bdi>a4</bdi></th><td class=\"c1 n\">9</td><th scope=\"row\"><bdi>a8</bdi></th><td dat\
    a-animal=\"a4\" data-other=\"a8\">1 (33 %)</td><td data-animal=\"a8\" data-other=\"a4\">1 (33 %)</td></tr>\n<t\
    r><td class=\"c6 n\">7</td><th scope=\"row\"><bdi>a6</bdi></th><td class=\"c5 n\">13</td><th scope=\"row\"><bd\
    i>a12</bdi></th><td data-animal=\"a6\" data-other=\"a12\">1 (33 %)</td><td data-animal=\"a12\" data-other=\"a6\
    \">1 (33 %)</td></tr>\n<tr><td class=\"c1 n\">9</td><th scope=\"row\"><bdi>a8</bdi></th><td class=\"c3 n\">11<\
    /td><th scope=\"row\"><bdi>a10</bdi></th><td data-animal=\"a8\" data-other=\"a10\">1 (33 %)</td><td data-anima\
    l=\"a10\" data-other=\"a8\">1 (33 %)</td></tr>\n</tbody></table>",
);

// Of forty-one such animals.
pub(crate) const SENTENCE_OF_FORTY_ONE: &str =
    "<p>41 animals: 100 % MCP from 1.00 m² (<bdi>a0</bdi>) to 41.0 m² (<bdi>a40</bdi>); half of them have 21.0 m² o\
    r less.</p>";

pub(crate) const PAIRS_OF_FORTY_ONE: &str =
    "<p class=\"note\">Pairs are sorted by the greater of both shares. The 60 pairs with the greatest shares are he\
    re.</p>\n";

pub(crate) const SAID: &str =
    " When the fixes were read this was said: “columns: a, b”; “zone: 33N”; “&lt;odd&gt; \\u202e line”; “3 records of fox \
    come before an earlier one: sorted by time”.";

pub(crate) const SAID_OF_FOURTEEN: &str =
    " When the fixes were read this was said: “line 0”; “line 1”; “line 2”; “line 3”; “line 4”; “line 5”; “line 6”\
    ; “line 7”; “line 8”; “line 9”; “line 10”; “line 11”; and 2 lines more.";

pub(crate) const SAID_OF_THIRTEEN: &str =
    " When the fixes were read this was said: “line 0”; “line 1”; “line 2”; “line 3”; “line 4”; “line 5”; “line 6”\
    ; “line 7”; “line 8”; “line 9”; “line 10”; “1 records of a”; and 1 line more.";

pub(crate) const SAID_OF_NAMED: &str =
    " When the fixes were read this was said: “2 of 9 fixes of records of fox lie 60 km from the others”; “animal &#\
    x27;not read: a&#x27; is named not read_ a”.";

pub(crate) const LEFT: &str =
    "Of 12,345 fixes of the export 1,203 were left out: 3 marked as outliers and 1,200 faster than the limit.";

pub(crate) const NOT_KNOWN: &str = "How many fixes were left out is not known.";

pub(crate) const NOTHING_LEFT: &str = "No fix of the data was left out (1 fix).";

pub(crate) const UNUSED_LEFT: &str =
    "Of 10 fixes of the data 2 were left out: 2 not in use, as the data said.";

pub(crate) const OPTIONS: &str = " Options of the split: zone 33N, skip-unnamed, na.";

pub(crate) const SUMS: &str =
    "<tr><th scope=\"row\">Export</th><td><bdi>a&amp;b.csv</bdi></td><td class=\"sum\" data-field=\"e\
    xport_sha256\">0000000000000000000000000000000000000000000000000000000000000000</td></tr>\n<tr><th scope=\"row\
    \">Report</th><td>report.txt</td><td class=\"sum\" data-field=\"report_sha256\">111111111111111111111111111111\
    1111111111111111111111111111111111</td></tr>\n<tr><th scope=\"row\">Program</th><td>homerange 1.0.0</td><td cl\
    ass=\"sum\" data-field=\"program_sha256\">2222222222222222222222222222222222222222222222222222222222222222</td\
    ></tr>";

pub(crate) const SUMS_OF_DATA: &str =
    "<tr><th scope=\"row\">Export</th><td></td><td class=\"sum\" data-field=\"export_sha256\">none: t\
    he tracks were made of a data frame</td></tr>\n<tr><th scope=\"row\">Report</th><td>report.txt</td><td class=\
    \"sum\" data-field=\"report_sha256\">1111111111111111111111111111111111111111111111111111111111111111</td></tr\
    >\n<tr><th scope=\"row\">Program</th><td>homerange 1.0.0</td><td class=\"sum\" data-field=\"program_sha256\">2\
    222222222222222222222222222222222222222222222222222222222222222</td></tr>";

pub(crate) const VERIFY: (&str, &str) = (
    "Sums are SHA-256. This checks the folder that is handed in, and says what held and what was not looked at, i\
    n a clone of homerange: <code>python3 tools/verify.py FOLDER EXPORT</code>",
    "Sums are SHA-256. This checks the folder that is handed in, and says what held and what was not looked at, i\
    n a clone of homerange: <code>python3 tools/verify.py FOLDER</code>",
);

pub(crate) const WITHOUT_RANGE: &str =
    "Without a range, since none of their fixes is used (fixes of the export): <bdi>b&lt;</bdi> (1) and <bdi>c</bdi\
    > (2,000).";

pub(crate) const WITHOUT_RANGE_OF_MANY: &str =
    "Without a range, since none of their fixes is used (fixes of the data): <bdi>a00</bdi> (1), <bdi>a01</bdi> (2)\
    , <bdi>a02</bdi> (3), <bdi>a03</bdi> (4), <bdi>a04</bdi> (5), <bdi>a05</bdi> (6), <bdi>a06</bdi> (7), <bdi>a07\
    </bdi> (8), <bdi>a08</bdi> (9), <bdi>a09</bdi> (10), <bdi>a10</bdi> (11), <bdi>a11</bdi> (12), <bdi>a12</bdi\
    > (13), <bdi>a13</bdi> (14), <bdi>a14</bdi> (15), <bdi>a15</bdi> (16), <bdi>a16</bdi> (17), <bdi>a17</bdi> (18\
    ), <bdi>a18</bdi> (19) and <bdi>a19</bdi> (20), and 3 more.";
