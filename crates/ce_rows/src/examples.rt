// The smallest examples: the rows of Thurston's pairs of three angles.
use crate::Row;
use crate::Row::{One, Two};

/// The rows of the angle 1/4. Their growth rate is the root above 1 of x^3 = x^2 + 2.
pub const QUARTER: [Row; 3] = [One(2), Two(0, 1), Two(1, 1)];

/// The rows of the angle 1/5.
pub const FIFTH: [Row; 6] = [One(2), Two(0, 3), Two(1, 3), One(0), One(1), One(3)];

/// The rows of the angle 2/5. Their growth rate is 1.
pub const TWO_FIFTHS: [Row; 6] = [Two(0, 1), One(4), Two(1, 3), One(0), One(1), One(3)];
