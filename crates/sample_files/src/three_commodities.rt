//! Three commodities with two spreads between them. The second spread uses what the first leaves.

/// Three commodities with a future each, and two intercommodity spreads:
/// `tests/cases/margin/three-commodities-two-spreads/params.csv`.
pub const PARAMS: &[u8] = b"\
SET,D1,1,USD
COMMODITY,AA,0,SUM
COMMODITY,BB,0,SUM
COMMODITY,CC,0,SUM
CONTRACT,FA,AA,F,202503,1,1,0,0,-400,-400,400,400,-800,-800,800,800,-1200,-1200,1200,1200,-1188,1188
CONTRACT,FB,BB,F,202503,1,1,0,0,-300,-300,300,300,-600,-600,600,600,-900,-900,900,900,-891,891
CONTRACT,FC,CC,F,202503,1,1,0,0,-100,-100,100,100,-200,-200,200,200,-300,-300,300,300,-297,297
INTER,1,5000,AA,A,1,BB,B,1
INTER,2,2000,AA,A,1,CC,B,1
";

/// An account that is long in the first commodity, and short in the other two:
/// `tests/cases/margin/three-commodities-two-spreads/positions.csv`.
pub const POSITIONS: &[u8] = b"\
X,FA,3
X,FB,-1
X,FC,-1
";

/// Three long futures at 1200, credited with half of 1200 and a fifth of 1200. The other two are credited with half of
/// 900 and a fifth of 300: `tests/cases/margin/three-commodities-two-spreads/stdout`.
pub const STATEMENT: &[u8] = b"\
R,X,D1,AA,3600,13,0,0,840,0,2760
R,X,D1,BB,900,11,0,0,450,0,450
R,X,D1,CC,300,11,0,0,60,0,240
T,X,D1,3450
";
