// Worked texts: of each command, and of maps in both versions.

pub(crate) const SHOWN: &str = "angle 1/6\n\
    preperiod 1 period 2\n\
    orbit 1/6 1/3 2/3\n\
    symbols 1 1 0\n\
    pairs 3\n\
    row 0 pair 0 1 to 2\n\
    row 1 pair 0 2 to 0 0\n\
    row 2 pair 1 2 to 1 0\n";

pub(crate) const WATCHED: &str = "session 0 reading 0 low 4294967296 high 4294967296\n\
    session 0 reading 1 low 4294967296 high 4294967296\n\
    session 1 reading 0 low 4294967296 high 4294967296\n\
    session 1 reading 1 low 4294967296 high 4294967296\n\
    angle 1/3 low 4294967296 high 4294967296\n";

pub(crate) const RELAXED: &str =
    "entries 115292150460684697 161409010644958576 186773283746309209\n\
    angle 1/4 low 6957847019 high 7423400265\n";

pub(crate) const PROBED: &str = "probe 2 count 3 rounds 0\n\
    low least 4294967296 greatest 8589934592\n\
    high least 4294967296 greatest 8589934592\n\
    widest 0\n\
    bits below 65536 above 65536\n";

pub(crate) const CLASSES: &str = "class,first,angles,preperiod,period,address,low,high,above\n\
    0,0/1,1,0,1,1,4294967296,4294967296,0\n\
    1,1/5,2,0,4,1 3 4,5368709120,6871947674,3\n\
    2,1/4,2,2,1,1 3 4 5 6 7 8 9 10 11 12 13 14 15 16,6979321856,7730941133,4\n\
    3,1/3,2,0,2,1 2,4294967296,4294967296,0\n\
    4,2/5,2,0,4,1 2 4,4294967296,4294967296,0\n\
    5,1/2,1,1,1,1 2 3 4 5 6 7 8 9 10 11 12 13 14 15 16,8589934592,8589934592,5\n";

pub(crate) const PART: &str = "core-entropy-part 2 order 4 scale 32\n\
    angle 1/4 low 4294967296 high 8589934592\n\
    ranks 0 0 0\n\
    low 0 1 1 1\n\
    high 1 1 1\n\
    angle 1/3 low 4294967296 high 4294967296\n\
    ranks 0\n\
    low 0 1\n\
    high 1\n\
    end 2\n";

pub(crate) const PARTS: &str = "core-entropy-part 2 order 3 scale 32\n\
    angle 1/3 low 4294967296 high 4294967296\n\
    ranks 0\n\
    low 0 1\n\
    high 1\n\
    end 1\n\
    core-entropy-part 2 order 3 scale 32\n\
    angle 1/2 low 8589934592 high 8589934592\n\
    ranks 0\n\
    low 0 1\n\
    high 1\n\
    end 1\n";

pub(crate) const MERGED: &str = "core-entropy-part 2 order 3 scale 32\n\
    angle 1/3 low 4294967296 high 4294967296\n\
    ranks 0\n\
    low 0 1\n\
    high 1\n\
    angle 1/2 low 8589934592 high 8589934592\n\
    ranks 0\n\
    low 0 1\n\
    high 1\n\
    end 2\n";

pub(crate) const THREE: &str = "core-entropy-map 2 order 3 scale 32\n\
    angle 0/1 low 4294967296 high 4294967296\n\
    ranks 0\n\
    low 0 1\n\
    high 1\n\
    angle 1/3 low 4294967296 high 4294967296\n\
    ranks 0\n\
    low 0 1\n\
    high 1\n\
    angle 1/2 low 8589934592 high 8589934592\n\
    ranks 0\n\
    low 0 1\n\
    high 1\n\
    angle 2/3 low 4294967296 high 4294967296\n\
    ranks 0\n\
    low 0 1\n\
    high 1\n\
    end 4\n";

pub(crate) const FIRST: &str = "core-entropy-map 1 order 2\n\
    angle 0/1 low 4294967296 high 4294967296\n\
    ranks 0\n\
    low 0 1\n\
    high 1\n\
    angle 1/2 low 8589934592 high 8589934592\n\
    ranks 0\n\
    low 0 1\n\
    high 1\n\
    end 2\n";

pub(crate) const SECOND: &str = "core-entropy-map 2 order 2 scale 32\n\
    angle 0/1 low 4294967296 high 4294967296\n\
    ranks 0\n\
    low 0 1\n\
    high 1\n\
    angle 1/2 low 8589934592 high 8589934592\n\
    ranks 0\n\
    low 0 1\n\
    high 1\n\
    end 2\n";

pub(crate) const NO_FIRST: &str = "core-entropy-map 1 order 2\n\
    angle 1/2 low 8589934592 high 8589934592\n\
    ranks 0\n\
    low 0 1\n\
    high 1\n\
    end 1\n";

pub(crate) const NO_SECOND: &str = "core-entropy-map 1 order 2\n\
    angle 0/1 low 4294967296 high 4294967296\n\
    ranks 0\n\
    low 0 1\n\
    high 1\n\
    end 1\n";

pub(crate) const FIVE_FIRST: &str = "core-entropy-map 1 order 5\n\
    angle 0/1 low 4294967296 high 4294967296\n\
    ranks 0\n\
    low 0 8\n\
    high 8\n\
    angle 1/5 low 5651272757 high 6277259895\n\
    ranks 0 0 0 0 1 2\n\
    low 0 13 16 19 9 1 1\n\
    high 13 16 19 9 1 1\n\
    angle 1/4 low 7158278826 high 7669584458\n\
    ranks 0 0 0\n\
    low 0 14 21 25\n\
    high 14 21 25\n\
    angle 1/3 low 4294967296 high 4294967296\n\
    ranks 0\n\
    low 0 8\n\
    high 8\n\
    angle 2/5 low 4294967296 high 4294967296\n\
    ranks 1 0 3 2 0 4\n\
    low 0 8 8 1 1 8 1\n\
    high 8 8 1 1 8 1\n\
    angle 1/2 low 8589934592 high 8589934592\n\
    ranks 0\n\
    low 0 27\n\
    high 27\n\
    angle 3/5 low 4294967296 high 4294967296\n\
    ranks 1 0 3 2 0 4\n\
    low 0 8 8 1 1 8 1\n\
    high 8 8 1 1 8 1\n\
    angle 2/3 low 4294967296 high 4294967296\n\
    ranks 0\n\
    low 0 8\n\
    high 8\n\
    angle 3/4 low 7158278826 high 7669584458\n\
    ranks 0 0 0\n\
    low 0 14 21 25\n\
    high 14 21 25\n\
    angle 4/5 low 5651272757 high 6277259895\n\
    ranks 0 0 0 0 1 2\n\
    low 0 13 16 19 9 1 1\n\
    high 13 16 19 9 1 1\n\
    end 10\n";

pub(crate) const FIVE_SECOND: &str = "core-entropy-map 2 order 5 scale 32\n\
    angle 0/1 low 4294967296 high 4294967296\n\
    ranks 0\n\
    low 0 8\n\
    high 8\n\
    angle 1/5 low 5651272757 high 6277259895\n\
    ranks 0 0 0 0 1 2\n\
    low 0 d 10 13 9 1 1\n\
    high d 10 13 9 1 1\n\
    angle 1/4 low 7158278826 high 7669584458\n\
    ranks 0 0 0\n\
    low 0 e 15 19\n\
    high e 15 19\n\
    angle 1/3 low 4294967296 high 4294967296\n\
    ranks 0\n\
    low 0 8\n\
    high 8\n\
    angle 2/5 low 4294967296 high 4294967296\n\
    ranks 1 0 3 2 0 4\n\
    low 0 8 8 1 1 8 1\n\
    high 8 8 1 1 8 1\n\
    angle 1/2 low 8589934592 high 8589934592\n\
    ranks 0\n\
    low 0 1b\n\
    high 1b\n\
    angle 3/5 low 4294967296 high 4294967296\n\
    ranks 1 0 3 2 0 4\n\
    low 0 8 8 1 1 8 1\n\
    high 8 8 1 1 8 1\n\
    angle 2/3 low 4294967296 high 4294967296\n\
    ranks 0\n\
    low 0 8\n\
    high 8\n\
    angle 3/4 low 7158278826 high 7669584458\n\
    ranks 0 0 0\n\
    low 0 e 15 19\n\
    high e 15 19\n\
    angle 4/5 low 5651272757 high 6277259895\n\
    ranks 0 0 0 0 1 2\n\
    low 0 d 10 13 9 1 1\n\
    high d 10 13 9 1 1\n\
    end 10\n";
