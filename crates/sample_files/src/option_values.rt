//! A commodity with a call and a put that have values, under version 2.

/// A call worth 120 and a put worth 80, and a short option minimum of 500:
/// `tests/cases/margin/short-options-with-value/params.csv`.
pub const PARAMS: &[u8] = b"\
SET,D2,2,USD
COMMODITY,AA,500,SUM
CONTRACT,CA,AA,C,202503,0.5,1,-5,-3,-9,-7,-4,-2,-12,-11,-3,-1,-20,-19,-2,-1,-15,-1,120
CONTRACT,PA,AA,P,202503,-0.5,1,0,0,0,0,0,0,0,0,0,0,0,0,0,0,0,0,80
";

/// An account that is short two calls and three puts: `tests/cases/margin/short-options-with-value/positions.csv`.
pub const POSITIONS: &[u8] = b"\
X,CA,-2
X,PA,-3
";

/// Five short options at 500, and an option value of -480, which is twice -120 plus three times -80:
/// `tests/cases/margin/short-options-with-value/stdout`.
pub const STATEMENT: &[u8] = b"\
R,X,D2,AA,40,11,0,0,0,2500,2500
T,X,D2,2500,-480,2980,0
";
