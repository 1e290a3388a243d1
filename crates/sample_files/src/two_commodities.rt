//! Two commodities with a spread between them.

/// Two commodities with a future each, and an intercommodity spread:
/// `tests/cases/margin/two-commodities-one-credit/params.csv`.
pub const PARAMS: &[u8] = b"\
SET,D1,1,USD
COMMODITY,AA,0,SUM
COMMODITY,BB,0,SUM
CONTRACT,FA,AA,F,202503,1,1,0,0,-400,-400,400,400,-800,-800,800,800,-1200,-1200,1200,1200,-1188,1188
CONTRACT,FB,BB,F,202503,1,1,0,0,-300,-300,300,300,-600,-600,600,600,-900,-900,900,900,-891,891
INTER,1,5000,AA,A,1,BB,B,1
";

/// An account that is long one future in the first commodity, and short two in the second:
/// `tests/cases/margin/two-commodities-one-credit/positions.csv`.
pub const POSITIONS: &[u8] = b"\
X,FA,1
X,FB,-2
";

/// One future at 1200, credited with half of it, and two at 900, credited with half of 900:
/// `tests/cases/margin/two-commodities-one-credit/stdout`.
pub const STATEMENT: &[u8] = b"\
R,X,D1,AA,1200,13,0,0,600,0,600
R,X,D1,BB,1800,11,0,0,450,0,1350
T,X,D1,1950
";

/// Two accounts: one is long one future in the first commodity, the other is short two in the second:
/// `tests/cases/whatif/records-of-two-orders-scattered/positions.csv`.
pub const TWO_ACCOUNTS: &[u8] = b"\
X,FA,1
Y,FB,-2
";

/// An order of each account. The second account's order comes first, and the records of both alternate:
/// `tests/cases/whatif/records-of-two-orders-scattered/orders.csv`.
pub const ORDERS: &[u8] = b"\
SWAP,Y,FA,1
HEDGE,X,FB,-1
SWAP,Y,FB,1
HEDGE,X,FB,-1
";

/// With its order, each account holds both commodities, and each commodity earns a credit:
/// `tests/cases/whatif/records-of-two-orders-scattered/stdout`.
pub const CHANGES: &[u8] = b"\
CHANGE,SWAP,Y,D1,AA,0,600,600
CHANGE,SWAP,Y,D1,BB,1800,450,-1350
ORDER,SWAP,Y,D1,1800,1050,-750
CHANGE,HEDGE,X,D1,AA,1200,600,-600
CHANGE,HEDGE,X,D1,BB,0,1350,1350
ORDER,HEDGE,X,D1,1200,1950,750
";

/// The explanation of the account. One spread forms, which credits half of the price risk of each delta it uses:
/// `tests/cases/explain/two-commodities-one-credit-explained/stdout`.
pub const EXPLANATION: &[u8] = b"\
HELD,X,D1,AA,FA,F,202503,1
SUMS,X,D1,AA,0,0,-400,-400,400,400,-800,-800,800,800,-1200,-1200,1200,1200,-1188,1188
SCAN,X,D1,AA,1200,13,14,1200
MONTH,X,D1,AA,202503,1,1
INTER,X,D1,AA,1,A,1,1,5000
CREDIT,X,D1,AA,1200,1,5000
SHORT,X,D1,AA,0,0,SUM,0
R,X,D1,AA,1200,13,0,0,600,0,600
HELD,X,D1,BB,FB,F,202503,-2
SUMS,X,D1,BB,0,0,600,600,-600,-600,1200,1200,-1200,-1200,1800,1800,-1800,-1800,1782,-1782
SCAN,X,D1,BB,1800,11,12,1800
MONTH,X,D1,BB,202503,-2,-2
INTER,X,D1,BB,1,A,1,1,5000
CREDIT,X,D1,BB,1800,-2,5000
SHORT,X,D1,BB,0,0,SUM,0
R,X,D1,BB,1800,11,0,0,450,0,1350
T,X,D1,1950
";
