// Reports, made by the released program (`release/homerange`) of small tracks, and their tables, made by `write_tables` of
// `python/homerange/write/output.py`; those of the track with records of an export had a `split.txt` with the lines `left,fox,3,speed`,
// `left,owl,2,no dop`, `track,fox,5,4` and `track,owl,3,3`. The name with a quote is in a report by hand, and its cells are by csv.writer.

/// A report, and its three tables.
#[derive(Clone, Copy)]
pub(crate) struct Case {
    pub report: &'static str,
    pub summary: &'static str,
    pub overlaps: &'static str,
    pub animals: &'static str,
}

pub(crate) const ONE: Case = Case {
    report: "animal,fox,fixes,12\n\
    box,fox,500000,5000000,500094,5000087\n\
    row,fox,1,1700000000,1,0\n\
    row,fox,2,1700003600,2,0\n\
    row,fox,3,1700007200,3,3293\n\
    row,fox,4,1700010800,4,5353\n\
    row,fox,5,1700014400,4,5353\n\
    row,fox,6,1700018000,4,10020\n\
    row,fox,7,1700021600,4,10020\n\
    row,fox,8,1700025200,4,10020\n\
    row,fox,9,1700028800,5,10910\n\
    row,fox,10,1700032400,5,10910\n\
    row,fox,11,1700036000,6,11051\n\
    row,fox,12,1700039600,7,11331\n\
    corner,fox,1,500000,5000000\n\
    corner,fox,2,500074,5000017\n\
    corner,fox,3,500094,5000068\n\
    corner,fox,4,500084,5000087\n\
    corner,fox,5,500067,5000085\n\
    corner,fox,6,500010,5000070\n\
    corner,fox,7,500003,5000049\n\
    percent,fox,50,6,3,1372\n\
    percent,fox,95,12,7,11331\n\
    percent,fox,100,12,7,11331\n\
    end,1\n",
    summary: "animal,first,last,fixes,level,kept,corners,hectares\n\
    fox,2023-11-14T22:13:20Z,2023-11-15T09:13:20Z,12,50,6,3,0.0686\n\
    fox,2023-11-14T22:13:20Z,2023-11-15T09:13:20Z,12,95,12,7,0.56655\n\
    fox,2023-11-14T22:13:20Z,2023-11-15T09:13:20Z,12,100,12,7,0.56655\n",
    overlaps: "fixes_of,fox\n\
    fox,1.0\n",
    animals: "animal,records,used,first,last,days,median_hours,longest_hours,hectares_50,hectares_95,hectares_100,within_95_fix,within_95_time,last_tenth,last_quarter\n\
    fox,,12,2023-11-14T22:13:20Z,2023-11-15T09:13:20Z,0.4583,1.0,1.0,0.0686,0.56655,0.56655,9,2023-11-15T06:13:20Z,0.0372,0.0372\n",
};

pub(crate) const TWO: Case = Case {
    report: "animal,fox,fixes,4\n\
    box,fox,0,0,400,300\n\
    row,fox,1,1700000000,1,0\n\
    row,fox,2,1700003600,2,0\n\
    row,fox,3,1700007200,3,120000\n\
    row,fox,4,1700010801,4,240000\n\
    corner,fox,1,0,0\n\
    corner,fox,2,400,0\n\
    corner,fox,3,400,300\n\
    corner,fox,4,0,300\n\
    percent,fox,50,2,2,0\n\
    percent,fox,100,4,4,240000\n\
    animal,owl,fixes,3\n\
    box,owl,200,100,900,700\n\
    row,owl,1,1700000000,1,0\n\
    row,owl,2,1700000108,2,0\n\
    row,owl,3,1700000208,3,1000\n\
    corner,owl,1,200,100\n\
    corner,owl,2,900,700\n\
    corner,owl,3,210,110\n\
    percent,owl,50,2,2,0\n\
    percent,owl,100,3,3,1000\n\
    overlap,fox,owl,0,4\n\
    overlap,owl,fox,2,3\n\
    end,2\n",
    summary: "animal,first,last,fixes,level,kept,corners,hectares\n\
    fox,2023-11-14T22:13:20Z,2023-11-15T01:13:21Z,4,50,2,2,0.0\n\
    fox,2023-11-14T22:13:20Z,2023-11-15T01:13:21Z,4,100,4,4,12.0\n\
    owl,2023-11-14T22:13:20Z,2023-11-14T22:16:48Z,3,50,2,2,0.0\n\
    owl,2023-11-14T22:13:20Z,2023-11-14T22:16:48Z,3,100,3,3,0.05\n",
    overlaps: "fixes_of,fox,owl\n\
    fox,1.0,0.0\n\
    owl,0.6667,1.0\n",
    animals: "animal,records,left_outlier,left_no_dop,left_speed,used,first,last,days,median_hours,longest_hours,hectares_50,hectares_100,within_95_fix,within_95_time,last_tenth,last_quarter\n\
    fox,8,1,0,3,4,2023-11-14T22:13:20Z,2023-11-15T01:13:21Z,0.125,1.0,1.0003,0.0,12.0,4,2023-11-15T01:13:21Z,0.5,0.5\n\
    owl,5,0,2,0,3,2023-11-14T22:13:20Z,2023-11-14T22:16:48Z,0.0024,0.0289,0.03,0.0,0.05,3,2023-11-14T22:16:48Z,1.0,1.0\n",
};

pub(crate) const NAMES: Case = Case {
    report: "animal,=1+1,fixes,3\n\
    box,=1+1,0,0,1,1\n\
    row,=1+1,1,1700000000,1,0\n\
    row,=1+1,2,1700000001,2,0\n\
    row,=1+1,3,1700000003,3,1\n\
    corner,=1+1,1,0,0\n\
    corner,=1+1,2,1,0\n\
    corner,=1+1,3,0,1\n\
    percent,=1+1,100,3,3,1\n\
    animal,'o b,fixes,3\n\
    box,'o b,0,0,5,3\n\
    row,'o b,1,1700000000,1,0\n\
    row,'o b,2,1700000001,2,0\n\
    row,'o b,3,1700000003,3,15\n\
    corner,'o b,1,0,0\n\
    corner,'o b,2,5,0\n\
    corner,'o b,3,0,3\n\
    percent,'o b,100,3,3,15\n\
    animal,@x,fixes,1\n\
    box,@x,5,5,5,5\n\
    row,@x,1,1700000000,1,0\n\
    corner,@x,1,5,5\n\
    percent,@x,100,1,1,0\n\
    overlap,=1+1,'o b,3,3\n\
    overlap,=1+1,@x,0,3\n\
    overlap,'o b,=1+1,1,3\n\
    overlap,'o b,@x,0,3\n\
    overlap,@x,=1+1,0,1\n\
    overlap,@x,'o b,0,1\n\
    end,3\n",
    summary: "animal,first,last,fixes,level,kept,corners,hectares\n\
    '=1+1,2023-11-14T22:13:20Z,2023-11-14T22:13:23Z,3,100,3,3,5e-05\n\
    ''o b,2023-11-14T22:13:20Z,2023-11-14T22:13:23Z,3,100,3,3,0.00075\n\
    '@x,2023-11-14T22:13:20Z,2023-11-14T22:13:20Z,1,100,1,1,0.0\n",
    overlaps: "fixes_of,'=1+1,''o b,'@x\n\
    '=1+1,1.0,1.0,0.0\n\
    ''o b,0.3333,1.0,0.0\n\
    '@x,0.0,0.0,1.0\n",
    animals: "animal,records,used,first,last,days,median_hours,longest_hours,hectares_100,within_95_fix,within_95_time,last_tenth,last_quarter\n\
    '=1+1,,3,2023-11-14T22:13:20Z,2023-11-14T22:13:23Z,0.0,0.0004,0.0006,5e-05,3,2023-11-14T22:13:23Z,1.0,1.0\n\
    ''o b,,3,2023-11-14T22:13:20Z,2023-11-14T22:13:23Z,0.0,0.0004,0.0006,0.00075,3,2023-11-14T22:13:23Z,1.0,1.0\n\
    '@x,,1,2023-11-14T22:13:20Z,2023-11-14T22:13:20Z,0.0,,,0.0,,,,\n",
};

pub(crate) const ONE_FIX: Case = Case {
    report: "animal,fox,fixes,1\n\
    box,fox,3,4,3,4\n\
    row,fox,1,1700000000,1,0\n\
    corner,fox,1,3,4\n\
    percent,fox,95,1,1,0\n\
    end,1\n",
    summary: "animal,first,last,fixes,level,kept,corners,hectares\n\
    fox,2023-11-14T22:13:20Z,2023-11-14T22:13:20Z,1,95,1,1,0.0\n",
    overlaps: "fixes_of,fox\n\
    fox,1.0\n",
    animals: "animal,records,used,first,last,days,median_hours,longest_hours,hectares_95,within_95_fix,within_95_time,last_tenth,last_quarter\n\
    fox,,1,2023-11-14T22:13:20Z,2023-11-14T22:13:20Z,0.0,,,0.0,,,,\n",
};

pub(crate) const NO_AREA: Case = Case {
    report: "animal,fox,fixes,3\n\
    box,fox,3,4,5,6\n\
    row,fox,1,1700000000,1,0\n\
    row,fox,2,1700000100,2,0\n\
    row,fox,3,1700000150,2,0\n\
    corner,fox,1,3,4\n\
    corner,fox,2,5,6\n\
    percent,fox,50,2,2,0\n\
    percent,fox,100,3,2,0\n\
    end,1\n",
    summary: "animal,first,last,fixes,level,kept,corners,hectares\n\
    fox,2023-11-14T22:13:20Z,2023-11-14T22:15:50Z,3,50,2,2,0.0\n\
    fox,2023-11-14T22:13:20Z,2023-11-14T22:15:50Z,3,100,3,2,0.0\n",
    overlaps: "fixes_of,fox\n\
    fox,1.0\n",
    animals: "animal,records,used,first,last,days,median_hours,longest_hours,hectares_50,hectares_100,within_95_fix,within_95_time,last_tenth,last_quarter\n\
    fox,,3,2023-11-14T22:13:20Z,2023-11-14T22:15:50Z,0.0017,0.0208,0.0278,0.0,0.0,,,,\n",
};

pub(crate) const DECIMETRES: Case = Case {
    report: "unit,dm\n\
    animal,fox,fixes,6\n\
    box,fox,5000000,50000000,5000020,50000020\n\
    row,fox,1,1700000000,1,0\n\
    row,fox,2,1700000060,2,0\n\
    row,fox,3,1700000120,3,115\n\
    row,fox,4,1700000180,4,283\n\
    row,fox,5,1700000240,5,349\n\
    row,fox,6,1700000300,4,542\n\
    corner,fox,1,5000000,50000000\n\
    corner,fox,2,5000014,50000001\n\
    corner,fox,3,5000020,50000018\n\
    corner,fox,4,5000005,50000020\n\
    percent,fox,50,3,3,103\n\
    percent,fox,95,6,4,542\n\
    percent,fox,100,6,4,542\n\
    animal,owl,fixes,16\n\
    box,owl,5000000,50000000,5002475,50002925\n\
    row,owl,1,1700000000,1,0\n\
    row,owl,2,1700000061,2,0\n\
    row,owl,3,1700000122,2,0\n\
    row,owl,4,1700000183,2,0\n\
    row,owl,5,1700000244,2,0\n\
    row,owl,6,1700000305,2,0\n\
    row,owl,7,1700000366,2,0\n\
    row,owl,8,1700000427,2,0\n\
    row,owl,9,1700000488,2,0\n\
    row,owl,10,1700000549,2,0\n\
    row,owl,11,1700000610,2,0\n\
    row,owl,12,1700000671,2,0\n\
    row,owl,13,1700000732,2,0\n\
    row,owl,14,1700000793,2,0\n\
    row,owl,15,1700000854,2,0\n\
    row,owl,16,1700000915,2,0\n\
    corner,owl,1,5000000,50000000\n\
    corner,owl,2,5002475,50002925\n\
    percent,owl,50,8,2,0\n\
    percent,owl,95,16,2,0\n\
    percent,owl,100,16,2,0\n\
    animal,cat,fixes,4\n\
    box,cat,5000000,50000000,5000002,50000001\n\
    row,cat,1,1700000000,1,0\n\
    row,cat,2,1700000001,2,0\n\
    row,cat,3,1700000004,3,1\n\
    row,cat,4,1700000009,4,3\n\
    corner,cat,1,5000000,50000000\n\
    corner,cat,2,5000001,50000000\n\
    corner,cat,3,5000002,50000001\n\
    corner,cat,4,5000000,50000001\n\
    percent,cat,50,2,2,0\n\
    percent,cat,95,4,4,3\n\
    percent,cat,100,4,4,3\n\
    overlap,fox,owl,1,6\n\
    overlap,fox,cat,1,6\n\
    overlap,owl,fox,2,16\n\
    overlap,owl,cat,1,16\n\
    overlap,cat,fox,2,4\n\
    overlap,cat,owl,1,4\n\
    end,3\n",
    summary: "animal,first,last,fixes,level,kept,corners,hectares\n\
    fox,2023-11-14T22:13:20Z,2023-11-14T22:18:20Z,6,50,3,3,5.15e-05\n\
    fox,2023-11-14T22:13:20Z,2023-11-14T22:18:20Z,6,95,6,4,0.000271\n\
    fox,2023-11-14T22:13:20Z,2023-11-14T22:18:20Z,6,100,6,4,0.000271\n\
    owl,2023-11-14T22:13:20Z,2023-11-14T22:28:35Z,16,50,8,2,0.0\n\
    owl,2023-11-14T22:13:20Z,2023-11-14T22:28:35Z,16,95,16,2,0.0\n\
    owl,2023-11-14T22:13:20Z,2023-11-14T22:28:35Z,16,100,16,2,0.0\n\
    cat,2023-11-14T22:13:20Z,2023-11-14T22:13:29Z,4,50,2,2,0.0\n\
    cat,2023-11-14T22:13:20Z,2023-11-14T22:13:29Z,4,95,4,4,1.5e-06\n\
    cat,2023-11-14T22:13:20Z,2023-11-14T22:13:29Z,4,100,4,4,1.5e-06\n",
    overlaps: "fixes_of,fox,owl,cat\n\
    fox,1.0,0.1667,0.1667\n\
    owl,0.125,1.0,0.0625\n\
    cat,0.5,0.25,1.0\n",
    animals: "animal,records,used,first,last,days,median_hours,longest_hours,hectares_50,hectares_95,hectares_100,within_95_fix,within_95_time,last_tenth,last_quarter\n\
    fox,,6,2023-11-14T22:13:20Z,2023-11-14T22:18:20Z,0.0035,0.0167,0.0167,5.15e-05,0.000271,0.000271,6,2023-11-14T22:18:20Z,0.3561,0.4779\n\
    owl,,16,2023-11-14T22:13:20Z,2023-11-14T22:28:35Z,0.0106,0.0169,0.0169,0.0,0.0,0.0,,,,\n\
    cat,,4,2023-11-14T22:13:20Z,2023-11-14T22:13:29Z,0.0001,0.0008,0.0014,0.0,1.5e-06,1.5e-06,4,2023-11-14T22:13:29Z,0.6667,0.6667\n",
};

pub(crate) const SECONDS: Case = Case {
    report: "animal,fox,fixes,4\n\
    box,fox,0,0,400,300\n\
    row,fox,1,0,1,0\n\
    row,fox,2,86400,2,0\n\
    row,fox,3,864001,3,120000\n\
    row,fox,4,9223372035,4,240000\n\
    corner,fox,1,0,0\n\
    corner,fox,2,400,0\n\
    corner,fox,3,400,300\n\
    corner,fox,4,0,300\n\
    percent,fox,100,4,4,240000\n\
    animal,owl,fixes,3\n\
    box,owl,200,0,900,900\n\
    row,owl,1,5,1,0\n\
    row,owl,2,9223372036,2,0\n\
    row,owl,3,1099511627776,3,560000\n\
    corner,owl,1,200,100\n\
    corner,owl,2,900,0\n\
    corner,owl,3,200,900\n\
    percent,owl,100,3,3,560000\n\
    overlap,fox,owl,1,4\n\
    overlap,owl,fox,1,3\n\
    end,2\n",
    summary: "animal,first,last,fixes,level,kept,corners,hectares\n\
    fox,0,9223372035,4,100,4,4,12.0\n\
    owl,5,1099511627776,3,100,3,3,28.0\n",
    overlaps: "fixes_of,fox,owl\n\
    fox,1.0,0.25\n\
    owl,0.3333,1.0\n",
    animals: "animal,records,used,first,last,days,median_hours,longest_hours,hectares_100,within_95_fix,within_95_time,last_tenth,last_quarter\n\
    fox,,4,0,9223372035,106751.9911,216.0003,2561807.7872,12.0,4,9223372035,0.5,0.5\n\
    owl,,3,5,1099511627776,12725829.0251,152709948.3015,302857848.8167,28.0,3,1099511627776,1.0,1.0\n",
};

pub(crate) const DATES: Case = Case {
    report: "animal,fox,fixes,4\n\
    box,fox,0,0,400,300\n\
    row,fox,1,100000000,1,0\n\
    row,fox,2,100086400,2,0\n\
    row,fox,3,951782400,3,120000\n\
    row,fox,4,9223372035,4,240000\n\
    corner,fox,1,0,0\n\
    corner,fox,2,400,0\n\
    corner,fox,3,400,300\n\
    corner,fox,4,0,300\n\
    percent,fox,100,4,4,240000\n\
    animal,owl,fixes,3\n\
    box,owl,200,0,900,900\n\
    row,owl,1,1709164800,1,0\n\
    row,owl,2,4107542400,2,0\n\
    row,owl,3,9223372035,3,560000\n\
    corner,owl,1,200,100\n\
    corner,owl,2,900,0\n\
    corner,owl,3,200,900\n\
    percent,owl,100,3,3,560000\n\
    overlap,fox,owl,1,4\n\
    overlap,owl,fox,1,3\n\
    end,2\n",
    summary: "animal,first,last,fixes,level,kept,corners,hectares\n\
    fox,1973-03-03T09:46:40Z,2262-04-11T23:47:15Z,4,100,4,4,12.0\n\
    owl,2024-02-29T00:00:00Z,2262-04-11T23:47:15Z,3,100,3,3,28.0\n",
    overlaps: "fixes_of,fox,owl\n\
    fox,1.0,0.25\n\
    owl,0.3333,1.0\n",
    animals: "animal,records,used,first,last,days,median_hours,longest_hours,hectares_100,within_95_fix,within_95_time,last_tenth,last_quarter\n\
    fox,,4,1973-03-03T09:46:40Z,2262-04-11T23:47:15Z,105594.5837,236582.2222,2297663.7875,12.0,4,2262-04-11T23:47:15Z,0.5,0.5\n\
    owl,,3,2024-02-29T00:00:00Z,2262-04-11T23:47:15Z,86969.9911,1043639.8938,1421063.7875,28.0,3,2262-04-11T23:47:15Z,1.0,1.0\n",
};

pub(crate) const QUOTED: Case = Case {
    report: "animal,a\"b,fixes,1\n\
    box,a\"b,1,1,1,1\n\
    row,a\"b,1,0,1,0\n\
    corner,a\"b,1,1,1\n\
    percent,a\"b,50,1,1,0\n\
    end,1\n",
    summary: "animal,first,last,fixes,level,kept,corners,hectares\n\
    \"a\"\"b\",0,0,1,50,1,1,0.0\n",
    overlaps: "fixes_of,\"a\"\"b\"\n\
    \"a\"\"b\",1.0\n",
    animals: "animal,records,used,first,last,days,median_hours,longest_hours,hectares_50,within_95_fix,within_95_time,last_tenth,last_quarter\n\
    \"a\"\"b\",,1,0,0,0.0,,,0.0,,,,\n",
};
