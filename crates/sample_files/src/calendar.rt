//! A calendar spread with a spot month, under a parameter set and under the next one.

/// Two tiers with a spread between them, and a spot month in the first:
/// `tests/cases/margin/two-tier-spread-and-spot-month/params.csv`.
pub const PARAMS: &[u8] = b"\
SET,D1,1,USD
COMMODITY,AA,0,SUM
CONTRACT,FA,AA,F,202503,1,1,0,0,-400,-400,400,400,-800,-800,800,800,-1200,-1200,1200,1200,-1188,1188
CONTRACT,FA2,AA,F,202506,1,1,0,0,-400,-400,400,400,-800,-800,800,800,-1200,-1200,1200,1200,-1188,1188
TIER,AA,1,202501,202504
TIER,AA,2,202505,202512
INTRA,AA,1,250,1,A,1,2,B,1
SPOT,AA,202503,10,20
";

/// The next parameter set, in which each spread costs 300 instead of 250:
/// `tests/cases/roll/next-set-with-a-higher-rate/next.csv`.
pub const NEXT: &[u8] = b"\
SET,D2,1,USD
COMMODITY,AA,0,SUM
CONTRACT,FA,AA,F,202503,1,1,0,0,-400,-400,400,400,-800,-800,800,800,-1200,-1200,1200,1200,-1188,1188
CONTRACT,FA2,AA,F,202506,1,1,0,0,-400,-400,400,400,-800,-800,800,800,-1200,-1200,1200,1200,-1188,1188
TIER,AA,1,202501,202504
TIER,AA,2,202505,202512
INTRA,AA,1,300,1,A,1,2,B,1
SPOT,AA,202503,10,20
";

/// A next parameter set that lacks the held contract FA2: `tests/cases/roll/next-set-lacks-a-held-contract/next.csv`.
pub const NEXT_WITHOUT_A_CONTRACT: &[u8] = b"\
SET,D2,1,USD
COMMODITY,AA,0,SUM
CONTRACT,FA,AA,F,202503,1,1,0,0,-400,-400,400,400,-800,-800,800,800,-1200,-1200,1200,1200,-1188,1188
TIER,AA,1,202501,202504
TIER,AA,2,202505,202512
INTRA,AA,1,300,1,A,1,2,B,1
SPOT,AA,202503,10,20
";

/// The output of `span check` for the first parameter set: `tests/cases/check/counts-of-a-full-file/stdout`.
pub const COUNTS: &[u8] = b"OK,D1,1,2,2,1,1,0\n";

/// An account that is long three of the near month and short two of the far one:
/// `tests/cases/margin/two-tier-spread-and-spot-month/positions.csv`.
pub const POSITIONS: &[u8] = b"\
X,FA,3
X,FA2,-2
";

/// A scan risk of 1200, two spreads at 250, one outright future of the spot month at 20, and two in spreads at 10:
/// `tests/cases/margin/two-tier-spread-and-spot-month/stdout`.
pub const STATEMENT: &[u8] = b"\
R,X,D1,AA,1200,13,500,40,0,0,1740
T,X,D1,1740
";

/// The explanation of the account. Two spreads at 250 form, which leaves one future of the near month:
/// `tests/cases/explain/two-tier-spread-and-spot-month-explained/stdout`.
pub const EXPLANATION: &[u8] = b"\
HELD,X,D1,AA,FA,F,202503,3
HELD,X,D1,AA,FA2,F,202506,-2
SUMS,X,D1,AA,0,0,-400,-400,400,400,-800,-800,800,800,-1200,-1200,1200,1200,-1188,1188
SCAN,X,D1,AA,1200,13,14,1200
MONTH,X,D1,AA,202503,3,1
MONTH,X,D1,AA,202506,-2,0
INTRA,X,D1,AA,1,A,2,250,500
SPOT,X,D1,AA,202503,2,10,1,20,40
CREDIT,X,D1,AA,1200,1,0
SHORT,X,D1,AA,0,0,SUM,0
R,X,D1,AA,1200,13,500,40,0,0,1740
T,X,D1,1740
";

/// The statement, followed by the statement under the next parameter set, with two spreads at 300:
/// `tests/cases/roll/next-set-with-a-higher-rate/stdout`.
pub const BOTH_STATEMENTS: &[u8] = b"\
R,X,D1,AA,1200,13,500,40,0,0,1740
T,X,D1,1740
R,X,D2,AA,1200,13,600,40,0,0,1840
T,X,D2,1840
";
