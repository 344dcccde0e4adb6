// Reports by hand, and their curves, made by `curves` of `python/homerange/write/page_curves.py`.

pub(crate) const ONE: &str = "animal,fox,fixes,12\n\
    box,fox,1,1,1,1\n\
    row,fox,1,1,1,0\n\
    row,fox,2,2,1,0\n\
    row,fox,3,3,1,3293\n\
    row,fox,4,4,1,5353\n\
    row,fox,5,5,1,5353\n\
    row,fox,6,6,1,10020\n\
    row,fox,7,7,1,10020\n\
    row,fox,8,8,1,10020\n\
    row,fox,9,9,1,10910\n\
    row,fox,10,10,1,10910\n\
    row,fox,11,11,1,11051\n\
    row,fox,12,12,1,11331\n\
    end,1\n\
    ";

pub(crate) const ONE_CURVES: &str =
    "<figure class=\"of1\"><figcaption><b class=\"c0\">1</b> <bdi>fox</bdi>: 5,666 m², 12 fixes</figcaption>\n\
    <svg class=\"small\" viewBox=\"0 0 672.0 190.0\" role=\"img\" aria-label=\"Area of animal 1 after each fix\">\n\
    <text x=\"34.0\" y=\"186.0\" text-anchor=\"middle\">0</text>\n\
    <text x=\"295.7\" y=\"186.0\" text-anchor=\"middle\">5</text>\n\
    <text x=\"557.3\" y=\"186.0\" text-anchor=\"middle\">10</text>\n\
    <path d=\"M34.0 176.0L662.0 176.0\" class=\"tick\"/>\n\
    <text x=\"31.0\" y=\"179.0\" text-anchor=\"end\">0</text>\n\
    <path d=\"M34.0 116.0L662.0 116.0\" class=\"tick\"/>\n\
    <text x=\"31.0\" y=\"119.0\" text-anchor=\"end\">2,000</text>\n\
    <path d=\"M34.0 56.0L662.0 56.0\" class=\"tick\"/>\n\
    <text x=\"31.0\" y=\"59.0\" text-anchor=\"end\">4,000</text>\n\
    <path class=\"axes\" d=\"M34.0 6.0V176.0H662.0\"/>\n\
    <path class=\"curve c0\" d=\"M86.3 176.0H191.0V126.6H243.3V95.7H348.0V25.7H505.0V12.3H609.7V10.2H662.0V6.0H662.0\"/>\n\
    <path d=\"M34.0 14.5L662.0 14.5\" class=\"aid\"/>\n\
    <circle class=\"c0 since\" cx=\"505.0\" cy=\"14.5\" r=\"3.0\"/>\n\
    </svg></figure>";

pub(crate) const TWO: &str = "unit,dm\n\
    animal,a<b,fixes,4\n\
    box,a<b,1,1,1,1\n\
    row,a<b,1,1,1,0\n\
    row,a<b,2,2,1,0\n\
    row,a<b,3,3,1,120000\n\
    row,a<b,4,4,1,240000\n\
    animal,owl,fixes,1\n\
    box,owl,1,1,1,1\n\
    row,owl,1,1,1,0\n\
    overlap,a<b,owl,0,4\n\
    overlap,owl,a<b,0,1\n\
    end,2\n\
    ";

pub(crate) const TWO_CURVES: &str =
    "<figure class=\"of2\"><figcaption><b class=\"c0\">1</b> <bdi>a&lt;b</bdi>: 1,200 m², 4 fixes</figcaption>\n\
    <svg class=\"small\" viewBox=\"0 0 332.0 170.0\" role=\"img\" aria-label=\"Area of animal 1 after each fix\">\n\
    <text x=\"34.0\" y=\"166.0\" text-anchor=\"middle\">0</text>\n\
    <text x=\"106.0\" y=\"166.0\" text-anchor=\"middle\">1</text>\n\
    <text x=\"178.0\" y=\"166.0\" text-anchor=\"middle\">2</text>\n\
    <text x=\"250.0\" y=\"166.0\" text-anchor=\"middle\">3</text>\n\
    <text x=\"322.0\" y=\"166.0\" text-anchor=\"middle\">4</text>\n\
    <path d=\"M34.0 156.0L322.0 156.0\" class=\"tick\"/>\n\
    <text x=\"31.0\" y=\"159.0\" text-anchor=\"end\">0</text>\n\
    <path d=\"M34.0 93.5L322.0 93.5\" class=\"tick\"/>\n\
    <text x=\"31.0\" y=\"96.5\" text-anchor=\"end\">500</text>\n\
    <path d=\"M34.0 31.0L322.0 31.0\" class=\"tick\"/>\n\
    <text x=\"31.0\" y=\"34.0\" text-anchor=\"end\">1,000</text>\n\
    <path class=\"axes\" d=\"M34.0 6.0V156.0H322.0\"/>\n\
    <path class=\"curve c0\" d=\"M106.0 156.0H250.0V81.0H322.0V6.0H322.0\"/>\n\
    <path d=\"M34.0 13.5L322.0 13.5\" class=\"aid\"/>\n\
    <circle class=\"c0 since\" cx=\"322.0\" cy=\"13.5\" r=\"3.0\"/>\n\
    </svg></figure>\n\
    <figure class=\"of2\"><figcaption><b class=\"c1\">2</b> <bdi>owl</bdi>: 0 ha, 1 fix</figcaption>\n\
    <svg class=\"small\" viewBox=\"0 0 332.0 170.0\" role=\"img\" aria-label=\"Area of animal 2 after each fix\">\n\
    <path class=\"axes\" d=\"M34.0 6.0V156.0H322.0\"/>\n\
    <path class=\"curve c1\" d=\"M322.0 156.0H322.0\"/>\n\
    </svg></figure>";

pub(crate) const FIVE: &str = "animal,a,fixes,5\n\
    box,a,1,1,1,1\n\
    row,a,1,1,1,0\n\
    row,a,2,2,1,0\n\
    row,a,3,3,1,30000\n\
    row,a,4,4,1,30000\n\
    row,a,5,5,1,60001\n\
    animal,b,fixes,2\n\
    box,b,1,1,1,1\n\
    row,b,1,1,1,0\n\
    row,b,2,2,1,0\n\
    animal,c,fixes,3\n\
    box,c,1,1,1,1\n\
    row,c,1,1,1,0\n\
    row,c,2,2,1,0\n\
    row,c,3,3,1,7\n\
    animal,d,fixes,3\n\
    box,d,1,1,1,1\n\
    row,d,1,1,1,0\n\
    row,d,2,2,1,0\n\
    row,d,3,3,1,19999\n\
    animal,e,fixes,4\n\
    box,e,1,1,1,1\n\
    row,e,1,1,1,0\n\
    row,e,2,2,1,0\n\
    row,e,3,3,1,20000\n\
    row,e,4,4,1,20500\n\
    overlap,a,b,0,5\n\
    overlap,a,c,0,5\n\
    overlap,a,d,0,5\n\
    overlap,a,e,0,5\n\
    overlap,b,a,0,2\n\
    overlap,b,c,0,2\n\
    overlap,b,d,0,2\n\
    overlap,b,e,0,2\n\
    overlap,c,a,0,3\n\
    overlap,c,b,0,3\n\
    overlap,c,d,0,3\n\
    overlap,c,e,0,3\n\
    overlap,d,a,0,3\n\
    overlap,d,b,0,3\n\
    overlap,d,c,0,3\n\
    overlap,d,e,0,3\n\
    overlap,e,a,0,4\n\
    overlap,e,b,0,4\n\
    overlap,e,c,0,4\n\
    overlap,e,d,0,4\n\
    end,5\n\
    ";

pub(crate) const FIVE_CURVES: &str =
    "<figure class=\"of4\"><figcaption><b class=\"c0\">1</b> <bdi>a</bdi>: 3.00 ha, 5 fixes</figcaption>\n\
    <svg class=\"small\" viewBox=\"0 0 162.0 118.0\" role=\"img\" aria-label=\"Area of animal 1 after each fix\">\n\
    <text x=\"34.0\" y=\"114.0\" text-anchor=\"middle\">0</text>\n\
    <text x=\"152.0\" y=\"114.0\" text-anchor=\"middle\">5</text>\n\
    <path d=\"M34.0 104.0L152.0 104.0\" class=\"tick\"/>\n\
    <text x=\"31.0\" y=\"107.0\" text-anchor=\"end\">0</text>\n\
    <path d=\"M34.0 71.3L152.0 71.3\" class=\"tick\"/>\n\
    <text x=\"31.0\" y=\"74.3\" text-anchor=\"end\">1</text>\n\
    <path d=\"M34.0 38.7L152.0 38.7\" class=\"tick\"/>\n\
    <text x=\"31.0\" y=\"41.7\" text-anchor=\"end\">2</text>\n\
    <path d=\"M34.0 6.0L152.0 6.0\" class=\"tick\"/>\n\
    <text x=\"31.0\" y=\"9.0\" text-anchor=\"end\">3</text>\n\
    <path class=\"axes\" d=\"M34.0 6.0V104.0H152.0\"/>\n\
    <path class=\"curve c0\" d=\"M57.6 104.0H104.8V55.0H152.0V6.0H152.0\"/>\n\
    <path d=\"M34.0 10.9L152.0 10.9\" class=\"aid\"/>\n\
    <circle class=\"c0 since\" cx=\"152.0\" cy=\"10.9\" r=\"3.0\"/>\n\
    </svg></figure>\n\
    <figure class=\"of4\"><figcaption><b class=\"c1\">2</b> <bdi>b</bdi>: 0 ha, 2 fixes</figcaption>\n\
    <svg class=\"small\" viewBox=\"0 0 162.0 118.0\" role=\"img\" aria-label=\"Area of animal 2 after each fix\">\n\
    <text x=\"34.0\" y=\"114.0\" text-anchor=\"middle\">0</text>\n\
    <text x=\"93.0\" y=\"114.0\" text-anchor=\"middle\">1</text>\n\
    <text x=\"152.0\" y=\"114.0\" text-anchor=\"middle\">2</text>\n\
    <path class=\"axes\" d=\"M34.0 6.0V104.0H152.0\"/>\n\
    <path class=\"curve c1\" d=\"M93.0 104.0H152.0\"/>\n\
    </svg></figure>\n\
    <figure class=\"of4\"><figcaption><b class=\"c2\">3</b> <bdi>c</bdi>: 3.50 m², 3 fixes</figcaption>\n\
    <svg class=\"small\" viewBox=\"0 0 162.0 118.0\" role=\"img\" aria-label=\"Area of animal 3 after each fix\">\n\
    <text x=\"34.0\" y=\"114.0\" text-anchor=\"middle\">0</text>\n\
    <text x=\"112.7\" y=\"114.0\" text-anchor=\"middle\">2</text>\n\
    <path d=\"M34.0 104.0L152.0 104.0\" class=\"tick\"/>\n\
    <text x=\"31.0\" y=\"107.0\" text-anchor=\"end\">0</text>\n\
    <path d=\"M34.0 76.0L152.0 76.0\" class=\"tick\"/>\n\
    <text x=\"31.0\" y=\"79.0\" text-anchor=\"end\">1</text>\n\
    <path d=\"M34.0 48.0L152.0 48.0\" class=\"tick\"/>\n\
    <text x=\"31.0\" y=\"51.0\" text-anchor=\"end\">2</text>\n\
    <path d=\"M34.0 20.0L152.0 20.0\" class=\"tick\"/>\n\
    <text x=\"31.0\" y=\"23.0\" text-anchor=\"end\">3</text>\n\
    <path class=\"axes\" d=\"M34.0 6.0V104.0H152.0\"/>\n\
    <path class=\"curve c2\" d=\"M73.3 104.0H152.0V6.0H152.0\"/>\n\
    <path d=\"M34.0 10.9L152.0 10.9\" class=\"aid\"/>\n\
    <circle class=\"c2 since\" cx=\"152.0\" cy=\"10.9\" r=\"3.0\"/>\n\
    </svg></figure>\n\
    <figure class=\"of4\"><figcaption><b class=\"c3\">4</b> <bdi>d</bdi>: 10,000 m², 3 fixes</figcaption>\n\
    <svg class=\"small\" viewBox=\"0 0 162.0 118.0\" role=\"img\" aria-label=\"Area of animal 4 after each fix\">\n\
    <text x=\"34.0\" y=\"114.0\" text-anchor=\"middle\">0</text>\n\
    <text x=\"112.7\" y=\"114.0\" text-anchor=\"middle\">2</text>\n\
    <path d=\"M34.0 104.0L152.0 104.0\" class=\"tick\"/>\n\
    <text x=\"31.0\" y=\"107.0\" text-anchor=\"end\">0</text>\n\
    <path d=\"M34.0 55.0L152.0 55.0\" class=\"tick\"/>\n\
    <text x=\"31.0\" y=\"58.0\" text-anchor=\"end\">5,000</text>\n\
    <path class=\"axes\" d=\"M34.0 6.0V104.0H152.0\"/>\n\
    <path class=\"curve c3\" d=\"M73.3 104.0H152.0V6.0H152.0\"/>\n\
    <path d=\"M34.0 10.9L152.0 10.9\" class=\"aid\"/>\n\
    <circle class=\"c3 since\" cx=\"152.0\" cy=\"10.9\" r=\"3.0\"/>\n\
    </svg></figure>\n\
    <figure class=\"of4\"><figcaption><b class=\"c4\">5</b> <bdi>e</bdi>: 1.03 ha, 4 fixes</figcaption>\n\
    <svg class=\"small\" viewBox=\"0 0 162.0 118.0\" role=\"img\" aria-label=\"Area of animal 5 after each fix\">\n\
    <text x=\"34.0\" y=\"114.0\" text-anchor=\"middle\">0</text>\n\
    <text x=\"93.0\" y=\"114.0\" text-anchor=\"middle\">2</text>\n\
    <text x=\"152.0\" y=\"114.0\" text-anchor=\"middle\">4</text>\n\
    <path d=\"M34.0 104.0L152.0 104.0\" class=\"tick\"/>\n\
    <text x=\"31.0\" y=\"107.0\" text-anchor=\"end\">0.0</text>\n\
    <path d=\"M34.0 56.2L152.0 56.2\" class=\"tick\"/>\n\
    <text x=\"31.0\" y=\"59.2\" text-anchor=\"end\">0.5</text>\n\
    <path d=\"M34.0 8.4L152.0 8.4\" class=\"tick\"/>\n\
    <text x=\"31.0\" y=\"11.4\" text-anchor=\"end\">1.0</text>\n\
    <path class=\"axes\" d=\"M34.0 6.0V104.0H152.0\"/>\n\
    <path class=\"curve c4\" d=\"M63.5 104.0H122.5V8.4H152.0V6.0H152.0\"/>\n\
    <path d=\"M34.0 10.9L152.0 10.9\" class=\"aid\"/>\n\
    <circle class=\"c4 since\" cx=\"122.5\" cy=\"10.9\" r=\"3.0\"/>\n\
    </svg></figure>";

pub(crate) const MANY: &str = "animal,n0,fixes,2\n\
    box,n0,1,1,1,1\n\
    row,n0,1,1,1,0\n\
    row,n0,2,2,1,0\n\
    animal,n1,fixes,2\n\
    box,n1,1,1,1,1\n\
    row,n1,1,1,1,0\n\
    row,n1,2,2,1,500\n\
    animal,n2,fixes,2\n\
    box,n2,1,1,1,1\n\
    row,n2,1,1,1,0\n\
    row,n2,2,2,1,1000\n\
    animal,n3,fixes,2\n\
    box,n3,1,1,1,1\n\
    row,n3,1,1,1,0\n\
    row,n3,2,2,1,1500\n\
    animal,n4,fixes,2\n\
    box,n4,1,1,1,1\n\
    row,n4,1,1,1,0\n\
    row,n4,2,2,1,2000\n\
    animal,n5,fixes,2\n\
    box,n5,1,1,1,1\n\
    row,n5,1,1,1,0\n\
    row,n5,2,2,1,2500\n\
    animal,n6,fixes,2\n\
    box,n6,1,1,1,1\n\
    row,n6,1,1,1,0\n\
    row,n6,2,2,1,3000\n\
    animal,n7,fixes,2\n\
    box,n7,1,1,1,1\n\
    row,n7,1,1,1,0\n\
    row,n7,2,2,1,3500\n\
    animal,n8,fixes,2\n\
    box,n8,1,1,1,1\n\
    row,n8,1,1,1,0\n\
    row,n8,2,2,1,4000\n\
    animal,n9,fixes,2\n\
    box,n9,1,1,1,1\n\
    row,n9,1,1,1,0\n\
    row,n9,2,2,1,4500\n\
    animal,n10,fixes,2\n\
    box,n10,1,1,1,1\n\
    row,n10,1,1,1,0\n\
    row,n10,2,2,1,5000\n\
    animal,n11,fixes,2\n\
    box,n11,1,1,1,1\n\
    row,n11,1,1,1,0\n\
    row,n11,2,2,1,5500\n\
    animal,n12,fixes,2\n\
    box,n12,1,1,1,1\n\
    row,n12,1,1,1,0\n\
    row,n12,2,2,1,6000\n\
    overlap,n0,n1,0,2\n\
    overlap,n0,n2,0,2\n\
    overlap,n0,n3,0,2\n\
    overlap,n0,n4,0,2\n\
    overlap,n0,n5,0,2\n\
    overlap,n0,n6,0,2\n\
    overlap,n0,n7,0,2\n\
    overlap,n0,n8,0,2\n\
    overlap,n0,n9,0,2\n\
    overlap,n0,n10,0,2\n\
    overlap,n0,n11,0,2\n\
    overlap,n0,n12,0,2\n\
    overlap,n1,n0,0,2\n\
    overlap,n1,n2,0,2\n\
    overlap,n1,n3,0,2\n\
    overlap,n1,n4,0,2\n\
    overlap,n1,n5,0,2\n\
    overlap,n1,n6,0,2\n\
    overlap,n1,n7,0,2\n\
    overlap,n1,n8,0,2\n\
    overlap,n1,n9,0,2\n\
    overlap,n1,n10,0,2\n\
    overlap,n1,n11,0,2\n\
    overlap,n1,n12,0,2\n\
    overlap,n2,n0,0,2\n\
    overlap,n2,n1,0,2\n\
    overlap,n2,n3,0,2\n\
    overlap,n2,n4,0,2\n\
    overlap,n2,n5,0,2\n\
    overlap,n2,n6,0,2\n\
    overlap,n2,n7,0,2\n\
    overlap,n2,n8,0,2\n\
    overlap,n2,n9,0,2\n\
    overlap,n2,n10,0,2\n\
    overlap,n2,n11,0,2\n\
    overlap,n2,n12,0,2\n\
    overlap,n3,n0,0,2\n\
    overlap,n3,n1,0,2\n\
    overlap,n3,n2,0,2\n\
    overlap,n3,n4,0,2\n\
    overlap,n3,n5,0,2\n\
    overlap,n3,n6,0,2\n\
    overlap,n3,n7,0,2\n\
    overlap,n3,n8,0,2\n\
    overlap,n3,n9,0,2\n\
    overlap,n3,n10,0,2\n\
    overlap,n3,n11,0,2\n\
    overlap,n3,n12,0,2\n\
    overlap,n4,n0,0,2\n\
    overlap,n4,n1,0,2\n\
    overlap,n4,n2,0,2\n\
    overlap,n4,n3,0,2\n\
    overlap,n4,n5,0,2\n\
    overlap,n4,n6,0,2\n\
    overlap,n4,n7,0,2\n\
    overlap,n4,n8,0,2\n\
    overlap,n4,n9,0,2\n\
    overlap,n4,n10,0,2\n\
    overlap,n4,n11,0,2\n\
    overlap,n4,n12,0,2\n\
    overlap,n5,n0,0,2\n\
    overlap,n5,n1,0,2\n\
    overlap,n5,n2,0,2\n\
    overlap,n5,n3,0,2\n\
    overlap,n5,n4,0,2\n\
    overlap,n5,n6,0,2\n\
    overlap,n5,n7,0,2\n\
    overlap,n5,n8,0,2\n\
    overlap,n5,n9,0,2\n\
    overlap,n5,n10,0,2\n\
    overlap,n5,n11,0,2\n\
    overlap,n5,n12,0,2\n\
    overlap,n6,n0,0,2\n\
    overlap,n6,n1,0,2\n\
    overlap,n6,n2,0,2\n\
    overlap,n6,n3,0,2\n\
    overlap,n6,n4,0,2\n\
    overlap,n6,n5,0,2\n\
    overlap,n6,n7,0,2\n\
    overlap,n6,n8,0,2\n\
    overlap,n6,n9,0,2\n\
    overlap,n6,n10,0,2\n\
    overlap,n6,n11,0,2\n\
    overlap,n6,n12,0,2\n\
    overlap,n7,n0,0,2\n\
    overlap,n7,n1,0,2\n\
    overlap,n7,n2,0,2\n\
    overlap,n7,n3,0,2\n\
    overlap,n7,n4,0,2\n\
    overlap,n7,n5,0,2\n\
    overlap,n7,n6,0,2\n\
    overlap,n7,n8,0,2\n\
    overlap,n7,n9,0,2\n\
    overlap,n7,n10,0,2\n\
    overlap,n7,n11,0,2\n\
    overlap,n7,n12,0,2\n\
    overlap,n8,n0,0,2\n\
    overlap,n8,n1,0,2\n\
    overlap,n8,n2,0,2\n\
    overlap,n8,n3,0,2\n\
    overlap,n8,n4,0,2\n\
    overlap,n8,n5,0,2\n\
    overlap,n8,n6,0,2\n\
    overlap,n8,n7,0,2\n\
    overlap,n8,n9,0,2\n\
    overlap,n8,n10,0,2\n\
    overlap,n8,n11,0,2\n\
    overlap,n8,n12,0,2\n\
    overlap,n9,n0,0,2\n\
    overlap,n9,n1,0,2\n\
    overlap,n9,n2,0,2\n\
    overlap,n9,n3,0,2\n\
    overlap,n9,n4,0,2\n\
    overlap,n9,n5,0,2\n\
    overlap,n9,n6,0,2\n\
    overlap,n9,n7,0,2\n\
    overlap,n9,n8,0,2\n\
    overlap,n9,n10,0,2\n\
    overlap,n9,n11,0,2\n\
    overlap,n9,n12,0,2\n\
    overlap,n10,n0,0,2\n\
    overlap,n10,n1,0,2\n\
    overlap,n10,n2,0,2\n\
    overlap,n10,n3,0,2\n\
    overlap,n10,n4,0,2\n\
    overlap,n10,n5,0,2\n\
    overlap,n10,n6,0,2\n\
    overlap,n10,n7,0,2\n\
    overlap,n10,n8,0,2\n\
    overlap,n10,n9,0,2\n\
    overlap,n10,n11,0,2\n\
    overlap,n10,n12,0,2\n\
    overlap,n11,n0,0,2\n\
    overlap,n11,n1,0,2\n\
    overlap,n11,n2,0,2\n\
    overlap,n11,n3,0,2\n\
    overlap,n11,n4,0,2\n\
    overlap,n11,n5,0,2\n\
    overlap,n11,n6,0,2\n\
    overlap,n11,n7,0,2\n\
    overlap,n11,n8,0,2\n\
    overlap,n11,n9,0,2\n\
    overlap,n11,n10,0,2\n\
    overlap,n11,n12,0,2\n\
    overlap,n12,n0,0,2\n\
    overlap,n12,n1,0,2\n\
    overlap,n12,n2,0,2\n\
    overlap,n12,n3,0,2\n\
    overlap,n12,n4,0,2\n\
    overlap,n12,n5,0,2\n\
    overlap,n12,n6,0,2\n\
    overlap,n12,n7,0,2\n\
    overlap,n12,n8,0,2\n\
    overlap,n12,n9,0,2\n\
    overlap,n12,n10,0,2\n\
    overlap,n12,n11,0,2\n\
    end,13\n\
    ";

pub(crate) const MANY_CURVES: &str =
    "<figure class=\"of6\"><figcaption><b class=\"c0\">1</b> 0 ha, 2 fixes</figcaption>\n\
    <svg class=\"small\" viewBox=\"0 0 105.3 74.0\" role=\"img\" aria-label=\"Area of animal 1 after each fix\">\n\
    <path class=\"axes\" d=\"M4.0 6.0V70.0H95.3\"/>\n\
    <path class=\"curve c0\" d=\"M49.7 70.0H95.3\"/>\n\
    </svg></figure>\n\
    <figure class=\"of6\"><figcaption><b class=\"c1\">2</b> 250 m², 2 fixes</figcaption>\n\
    <svg class=\"small\" viewBox=\"0 0 105.3 74.0\" role=\"img\" aria-label=\"Area of animal 2 after each fix\">\n\
    <path class=\"axes\" d=\"M4.0 6.0V70.0H95.3\"/>\n\
    <path class=\"curve c1\" d=\"M49.7 70.0H95.3V6.0H95.3\"/>\n\
    <path d=\"M4.0 9.2L95.3 9.2\" class=\"aid\"/>\n\
    <circle class=\"c1 since\" cx=\"95.3\" cy=\"9.2\" r=\"2.2\"/>\n\
    </svg></figure>\n\
    <figure class=\"of6\"><figcaption><b class=\"c2\">3</b> 500 m², 2 fixes</figcaption>\n\
    <svg class=\"small\" viewBox=\"0 0 105.3 74.0\" role=\"img\" aria-label=\"Area of animal 3 after each fix\">\n\
    <path class=\"axes\" d=\"M4.0 6.0V70.0H95.3\"/>\n\
    <path class=\"curve c2\" d=\"M49.7 70.0H95.3V6.0H95.3\"/>\n\
    <path d=\"M4.0 9.2L95.3 9.2\" class=\"aid\"/>\n\
    <circle class=\"c2 since\" cx=\"95.3\" cy=\"9.2\" r=\"2.2\"/>\n\
    </svg></figure>\n\
    <figure class=\"of6\"><figcaption><b class=\"c3\">4</b> 750 m², 2 fixes</figcaption>\n\
    <svg class=\"small\" viewBox=\"0 0 105.3 74.0\" role=\"img\" aria-label=\"Area of animal 4 after each fix\">\n\
    <path class=\"axes\" d=\"M4.0 6.0V70.0H95.3\"/>\n\
    <path class=\"curve c3\" d=\"M49.7 70.0H95.3V6.0H95.3\"/>\n\
    <path d=\"M4.0 9.2L95.3 9.2\" class=\"aid\"/>\n\
    <circle class=\"c3 since\" cx=\"95.3\" cy=\"9.2\" r=\"2.2\"/>\n\
    </svg></figure>\n\
    <figure class=\"of6\"><figcaption><b class=\"c4\">5</b> 1,000 m², 2 fixes</figcaption>\n\
    <svg class=\"small\" viewBox=\"0 0 105.3 74.0\" role=\"img\" aria-label=\"Area of animal 5 after each fix\">\n\
    <path class=\"axes\" d=\"M4.0 6.0V70.0H95.3\"/>\n\
    <path class=\"curve c4\" d=\"M49.7 70.0H95.3V6.0H95.3\"/>\n\
    <path d=\"M4.0 9.2L95.3 9.2\" class=\"aid\"/>\n\
    <circle class=\"c4 since\" cx=\"95.3\" cy=\"9.2\" r=\"2.2\"/>\n\
    </svg></figure>\n\
    <figure class=\"of6\"><figcaption><b class=\"c5\">6</b> 1,250 m², 2 fixes</figcaption>\n\
    <svg class=\"small\" viewBox=\"0 0 105.3 74.0\" role=\"img\" aria-label=\"Area of animal 6 after each fix\">\n\
    <path class=\"axes\" d=\"M4.0 6.0V70.0H95.3\"/>\n\
    <path class=\"curve c5\" d=\"M49.7 70.0H95.3V6.0H95.3\"/>\n\
    <path d=\"M4.0 9.2L95.3 9.2\" class=\"aid\"/>\n\
    <circle class=\"c5 since\" cx=\"95.3\" cy=\"9.2\" r=\"2.2\"/>\n\
    </svg></figure>\n\
    <figure class=\"of6\"><figcaption><b class=\"c6\">7</b> 1,500 m², 2 fixes</figcaption>\n\
    <svg class=\"small\" viewBox=\"0 0 105.3 74.0\" role=\"img\" aria-label=\"Area of animal 7 after each fix\">\n\
    <path class=\"axes\" d=\"M4.0 6.0V70.0H95.3\"/>\n\
    <path class=\"curve c6\" d=\"M49.7 70.0H95.3V6.0H95.3\"/>\n\
    <path d=\"M4.0 9.2L95.3 9.2\" class=\"aid\"/>\n\
    <circle class=\"c6 since\" cx=\"95.3\" cy=\"9.2\" r=\"2.2\"/>\n\
    </svg></figure>\n\
    <figure class=\"of6\"><figcaption><b class=\"c0\">8</b> 1,750 m², 2 fixes</figcaption>\n\
    <svg class=\"small\" viewBox=\"0 0 105.3 74.0\" role=\"img\" aria-label=\"Area of animal 8 after each fix\">\n\
    <path class=\"axes\" d=\"M4.0 6.0V70.0H95.3\"/>\n\
    <path class=\"curve c0\" d=\"M49.7 70.0H95.3V6.0H95.3\"/>\n\
    <path d=\"M4.0 9.2L95.3 9.2\" class=\"aid\"/>\n\
    <circle class=\"c0 since\" cx=\"95.3\" cy=\"9.2\" r=\"2.2\"/>\n\
    </svg></figure>\n\
    <figure class=\"of6\"><figcaption><b class=\"c1\">9</b> 2,000 m², 2 fixes</figcaption>\n\
    <svg class=\"small\" viewBox=\"0 0 105.3 74.0\" role=\"img\" aria-label=\"Area of animal 9 after each fix\">\n\
    <path class=\"axes\" d=\"M4.0 6.0V70.0H95.3\"/>\n\
    <path class=\"curve c1\" d=\"M49.7 70.0H95.3V6.0H95.3\"/>\n\
    <path d=\"M4.0 9.2L95.3 9.2\" class=\"aid\"/>\n\
    <circle class=\"c1 since\" cx=\"95.3\" cy=\"9.2\" r=\"2.2\"/>\n\
    </svg></figure>\n\
    <figure class=\"of6\"><figcaption><b class=\"c2\">10</b> 2,250 m², 2 fixes</figcaption>\n\
    <svg class=\"small\" viewBox=\"0 0 105.3 74.0\" role=\"img\" aria-label=\"Area of animal 10 after each fix\">\n\
    <path class=\"axes\" d=\"M4.0 6.0V70.0H95.3\"/>\n\
    <path class=\"curve c2\" d=\"M49.7 70.0H95.3V6.0H95.3\"/>\n\
    <path d=\"M4.0 9.2L95.3 9.2\" class=\"aid\"/>\n\
    <circle class=\"c2 since\" cx=\"95.3\" cy=\"9.2\" r=\"2.2\"/>\n\
    </svg></figure>\n\
    <figure class=\"of6\"><figcaption><b class=\"c3\">11</b> 2,500 m², 2 fixes</figcaption>\n\
    <svg class=\"small\" viewBox=\"0 0 105.3 74.0\" role=\"img\" aria-label=\"Area of animal 11 after each fix\">\n\
    <path class=\"axes\" d=\"M4.0 6.0V70.0H95.3\"/>\n\
    <path class=\"curve c3\" d=\"M49.7 70.0H95.3V6.0H95.3\"/>\n\
    <path d=\"M4.0 9.2L95.3 9.2\" class=\"aid\"/>\n\
    <circle class=\"c3 since\" cx=\"95.3\" cy=\"9.2\" r=\"2.2\"/>\n\
    </svg></figure>\n\
    <figure class=\"of6\"><figcaption><b class=\"c4\">12</b> 2,750 m², 2 fixes</figcaption>\n\
    <svg class=\"small\" viewBox=\"0 0 105.3 74.0\" role=\"img\" aria-label=\"Area of animal 12 after each fix\">\n\
    <path class=\"axes\" d=\"M4.0 6.0V70.0H95.3\"/>\n\
    <path class=\"curve c4\" d=\"M49.7 70.0H95.3V6.0H95.3\"/>\n\
    <path d=\"M4.0 9.2L95.3 9.2\" class=\"aid\"/>\n\
    <circle class=\"c4 since\" cx=\"95.3\" cy=\"9.2\" r=\"2.2\"/>\n\
    </svg></figure>\n\
    <figure class=\"of6\"><figcaption><b class=\"c5\">13</b> 3,000 m², 2 fixes</figcaption>\n\
    <svg class=\"small\" viewBox=\"0 0 105.3 74.0\" role=\"img\" aria-label=\"Area of animal 13 after each fix\">\n\
    <path class=\"axes\" d=\"M4.0 6.0V70.0H95.3\"/>\n\
    <path class=\"curve c5\" d=\"M49.7 70.0H95.3V6.0H95.3\"/>\n\
    <path d=\"M4.0 9.2L95.3 9.2\" class=\"aid\"/>\n\
    <circle class=\"c5 since\" cx=\"95.3\" cy=\"9.2\" r=\"2.2\"/>\n\
    </svg></figure>";
