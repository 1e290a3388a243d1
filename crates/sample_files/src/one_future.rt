//! One future, which loses 400 for each third of the scan range that the price falls.

/// A parameter set with one future: `tests/cases/margin/one-future-long/params.csv`.
pub const PARAMS: &[u8] = b"\
SET,D1,1,USD
COMMODITY,AA,0,SUM
CONTRACT,FA,AA,F,202503,1,1,0,0,-400,-400,400,400,-800,-800,800,800,-1200,-1200,1200,1200,-1188,1188
";

/// An account that is long one future: `tests/cases/margin/one-future-long/positions.csv`.
pub const POSITIONS: &[u8] = b"X,FA,1\n";

/// A scan risk of 1200: `tests/cases/margin/one-future-long/stdout`.
pub const STATEMENT: &[u8] = b"\
R,X,D1,AA,1200,13,0,0,0,0,1200
T,X,D1,1200
";

/// The explanation of the account: `tests/cases/explain/one-future-long-explained/stdout`.
pub const EXPLANATION: &[u8] = b"\
HELD,X,D1,AA,FA,F,202503,1
SUMS,X,D1,AA,0,0,-400,-400,400,400,-800,-800,800,800,-1200,-1200,1200,1200,-1188,1188
SCAN,X,D1,AA,1200,13,14,1200
MONTH,X,D1,AA,202503,1,1
CREDIT,X,D1,AA,1200,1,0
SHORT,X,D1,AA,0,0,SUM,0
R,X,D1,AA,1200,13,0,0,0,0,1200
T,X,D1,1200
";

/// The explanation of another account, Y, whose two records add up to one future:
/// `tests/cases/explain/one-account-of-three/stdout`.
pub const EXPLANATION_OF_Y: &[u8] = b"\
HELD,Y,D1,AA,FA,F,202503,1
SUMS,Y,D1,AA,0,0,-400,-400,400,400,-800,-800,800,800,-1200,-1200,1200,1200,-1188,1188
SCAN,Y,D1,AA,1200,13,14,1200
MONTH,Y,D1,AA,202503,1,1
CREDIT,Y,D1,AA,1200,1,0
SHORT,Y,D1,AA,0,0,SUM,0
R,Y,D1,AA,1200,13,0,0,0,0,1200
T,Y,D1,1200
";
