//! Makes each call that may fail once, with memory available: no clause says that it succeeds. The expected results
//! were worked out by hand. The account of the calendar spread is long three of the near month and short two of the far
//! month.
ghost use Rattle.span_tables.specs.Holdings.{fits};
ghost use Rattle.std.specs.Prelude.{◌≡◌, IfOk, length, true};

use crate::credits::{loaded, two_commodities};
use binding::binder::Binder;
use binding::faults::BindFault;
use binding::orders::{Orders, bind_orders};
use binding::positions::{bind, bind_faults};
use binding::trades::{Trade, Trader};
use inter_credit::credit::credit;
use inter_credit::spreads::inter_spread;
use inter_credit::state::InterState;
use param_check::check::{check, check_faults};
use param_check::faults::CheckFault;
use sample_files::calendar::{PARAMS, POSITIONS};
use span_csv::cuts::cut_at_lines;
use span_csv::faults::{ParamFault, PositionFault};
use span_csv::orders::read_orders;
use span_csv::params::{param_faults, read_params};
use span_csv::positions::{position_faults, read_piece, read_positions};
use span_csv::together::AllAccounts;
use span_money::exact::push_exact;
use span_money::line_fields::{Field, push_line, push_line_of_numbers, push_number, push_start};
use span_tables::groups::{empty_lists, push_at};
use span_tables::held::{Held, OwnedHeld, gather, gather_all};
use span_tables::name::Name;
use span_tables::portfolios::{Portfolio, Portfolios};
use span_tables::raw::RawPositions;
use span_tables::tables::Tables;
use spread_stage::deltas::month_deltas;
use spread_stage::months::MonthUnits;
use spread_stage::tiers::{spread, start};
use std::alloc::{AllocError, Global};
use std::process::Abort;
use std::test::Fail;

#[test]
fn calls_succeed(rt: HostRuntime) -> Result<(), Fail> {
    let alloc = rt.alloc();
    fields(&rt, alloc)?;
    lists(&rt, alloc)?;
    faults_read(&rt, alloc)?;
    let tables = tables_read(&rt, alloc)?;
    pieces_read(&rt, alloc, &tables)?;
    steps_bound(&rt, alloc, &tables)?;
    faults_found(&rt, alloc, &tables)?;
    let account = account_read(&rt, alloc, &tables)?;
    orders_read(&rt, alloc, &tables)?;
    trades_made(&rt, alloc, &tables, &account)?;
    lists_held(&rt, alloc, &tables, &account)?;
    let held = held_of(&rt, alloc, &tables, &account)?;
    spreads_of_months(&rt, alloc, &tables, &held.as_held())?;
    spreads_of_commodities(&rt, alloc)
}

// `span_money`: a decimal, a line of fields, a line of numbers, and a line in parts.
fn fields(rt: &impl Abort, alloc: Global) -> Result<(), AllocError> {
    let mut line = Vec::new(alloc);
    push_exact(&mut line, 50_000_000, 8)?;
    let ids = [Field::Bytes(b"AA".as_slice())];
    push_line(&mut line, "X", &ids, &[Field::Half(3), Field::Text("A")])?;
    push_line_of_numbers(&mut line, "Y", &ids, &[-12, 1740])?;
    push_start(&mut line, "Z", &ids)?;
    push_number(&mut line, -7)?;
    assert_eq!(rt;
        line.as_slice(),
        b"0.5X,AA,1.5,A\nY,AA,-12,1740\nZ,AA,-7".as_slice()
    );
    Ok(())
}

// `span_tables`: two lists, one with a value.
fn lists(rt: &impl Abort, alloc: Global) -> Result<(), AllocError> {
    let mut lists = empty_lists(alloc, 2)?;
    push_at(&mut lists, 1, 7)?;
    let lengths = lists.iter().map(|list| list.len());
    assert!(rt; lengths.eq([0, 1]));
    Ok(())
}

// `span_csv`: all read faults of a parameter file and of a position file, each with two records.
fn faults_read(rt: &impl Abort, alloc: Global) -> Result<(), AllocError> {
    let found = param_faults(alloc, b"SET,D1,1\nCOMMODITY,AA,x,SUM\n")?;
    let expected = [
        ParamFault::FieldCount { at: 1 },
        ParamFault::BadNumber { at: 2 },
    ];
    assert!(rt; found.as_slice() == expected.as_slice());
    let found = position_faults(alloc, b"X,FA\nX,FA,y\n")?;
    let expected = [
        PositionFault::FieldCount { at: 1 },
        PositionFault::BadNumber { at: 2 },
    ];
    assert!(rt; found.as_slice() == expected.as_slice());
    Ok(())
}

// `span_csv` and `param_check`: the tables of a file of eight records.
fn tables_read(rt: &impl Abort, alloc: Global) -> Result<Tables, Fail> {
    let raw = read_params(alloc, PARAMS)?;
    assert_eq!(rt; raw.records().len(), 8);
    let tables = check(alloc, raw)?;
    assert_eq!(rt; tables.set_id().as_bytes(), b"D1".as_slice());
    Ok(tables)
}

// Returns whether the only account is long three of the first contract and short two of the second.
fn is_calendar(portfolios: &Portfolios) -> bool {
    match portfolios.as_slice() {
        [account] => match account.holdings() {
            [near, far] => (near.contract, near.net, far.contract, far.net) == (0, 3, 1, -2),
            _ => false,
        },
        _ => false,
    }
}

// `span_csv` and `param_check`: the holdings of the only account in a file of two records.
fn portfolios_read(rt: &impl Abort, alloc: Global, tables: &Tables) -> Result<Portfolios, Fail> {
    let positions = read_positions(alloc, POSITIONS)?;
    assert_eq!(rt; positions.records().len(), 2);
    let portfolios = bind(alloc, tables, &positions)?;
    assert!(rt; is_calendar(&portfolios));
    Ok(portfolios)
}

// `span_csv`: the same position file in one piece, with its records numbered by the accounts of all pieces, and a piece
// with a fault.
fn pieces_read(rt: &impl Abort, alloc: Global, tables: &Tables) -> Result<(), Fail> {
    let pieces = cut_at_lines(alloc, POSITIONS, 2)?;
    assert!(rt; pieces.as_slice() == [POSITIONS].as_slice());
    assert!(rt; read_piece(alloc, b"X,FA\n")?.is_none());
    let numbered = piece_numbered(alloc, POSITIONS)?.ok_or("accounts")?;
    assert!(rt; is_calendar(&bind(alloc, tables, &numbered)?));
    Ok(())
}

// Returns the records of a position file read in one piece, numbered by its accounts, or `None` if it has a fault.
fn piece_numbered(alloc: Global, bytes: &[u8]) -> Result<Option<RawPositions>, AllocError> {
    let Some(piece) = read_piece(alloc, bytes)? else {
        return Ok(None);
    };
    let pieces = [piece];
    let Some(accounts) = AllAccounts::of(alloc, &pieces)? else {
        return Ok(None);
    };
    let Some(piece) = read_piece(alloc, bytes)? else {
        return Ok(None);
    };
    let records = accounts.numbered(alloc, piece)?;
    Ok(Some(accounts.positions(records)))
}

// `param_check`: the same holdings, bound in the steps that several threads can take concurrently.
fn steps_bound(rt: &impl Abort, alloc: Global, tables: &Tables) -> Result<(), Fail> {
    let positions = read_positions(alloc, POSITIONS)?;
    let portfolios = bound_in_steps(alloc, tables, &positions)?;
    assert!(rt; is_calendar(&portfolios));
    Ok(())
}

// Returns the holdings of each account, bound in steps over all records or all accounts.
fn bound_in_steps(
    alloc: Global,
    tables: &Tables,
    positions: &RawPositions,
) -> Result<Portfolios, Fail> {
    let binder = Binder::new(alloc, tables)?;
    let found = binder.find(alloc, positions.records())?;
    if !binder.knows_all(&found) {
        return Err("a contract".into());
    }
    let accounts = positions.accounts().len();
    let nets = binder.nets(alloc, &found, positions, 0, accounts)?;
    let portfolios = binder.bound(alloc, nets, positions)?;
    Ok(portfolios)
}

// `param_check`: all faults of the records of a parameter file and of a position file.
fn faults_found(rt: &impl Abort, alloc: Global, tables: &Tables) -> Result<(), Fail> {
    let twice = b"SET,D1,1,USD\nCOMMODITY,AA,0,SUM\nCOMMODITY,AA,0,SUM\n";
    let found = check_faults(alloc, &read_params(alloc, twice)?)?;
    assert!(rt; found.as_slice() == [CheckFault::DuplicateCommodity { at: 3 }].as_slice());
    let positions = read_positions(alloc, b"X,FZ,1\nX,FA,100000\nX,FA,1\n")?;
    let found = bind_faults(alloc, tables, &positions)?;
    let expected = [
        BindFault::UnknownContract {
            at: 1,
            account: Name::new(b"X").ok_or("a name")?,
        },
        BindFault::NetOutOfRange {
            at: 2,
            account: Name::new(b"X").ok_or("a name")?,
        },
    ];
    assert!(rt; found.as_slice() == expected.as_slice());
    Ok(())
}

// Returns the account, which fits the tables.
fn account_read(rt: &impl Abort, alloc: Global, tables: &Tables) -> Result<Portfolio, Fail>
    ensures { IfOk result (λ account. fits (length tables.now.contracts) account.holdings ≡ true) }
{
    let portfolios = portfolios_read(rt, alloc, tables)?;
    let account = portfolios.into_vec().pop().ok_or("an account")?;
    assert!(rt; account.fits(tables));
    Ok(account)
}

// Returns whether an account holds only this contract.
fn holds(account: &Portfolio, contract: u32, net: i32) -> bool {
    match account.holdings() {
        [only] => (only.contract, only.net) == (contract, net),
        _ => false,
    }
}

// `span_csv` and `param_check`: an order that closes the short contract and sells one of the other, and an order of a
// new account.
fn orders_bound(rt: &impl Abort, alloc: Global, tables: &Tables) -> Result<Orders, Fail> {
    let portfolios = portfolios_read(rt, alloc, tables)?;
    let raw = read_orders(alloc, b"CLOSE,X,FA2,2\nOPEN,Y,FA,4\nCLOSE,X,FA,-1\n")?;
    let orders = bind_orders(alloc, tables, portfolios, &raw)?;
    Ok(orders)
}

// Returns whether the first of two orders is of the only account with holdings, and the second is of a new account.
fn are_close_and_open(orders: &Orders) -> bool
    requires { length orders.now.orders ≡ 2 }
{
    orders.name(0).as_bytes() == b"CLOSE".as_slice()
        && orders.place(0) == Some(0)
        && orders.place(1).is_none()
}

// `param_check`: the accounts of these orders, and the holdings with each order.
fn orders_read(rt: &impl Abort, alloc: Global, tables: &Tables) -> Result<(), Fail> {
    let orders = orders_bound(rt, alloc, tables)?;
    assert_eq!(rt; orders.len(), 2);
    assert!(rt; are_close_and_open(&orders));
    let after = orders.portfolios_with(alloc, 0, 2)?;
    assert_eq!(rt; after.len(), 2);
    assert!(rt; holds(&after[0], 0, 2) && holds(&after[1], 0, 4));
    Ok(())
}

// Returns a trade in a contract with this id.
fn trade(id: &[u8], quantity: i32) -> Result<Trade, Fail>
    ensures { IfOk result (λ trade. trade.quantity ≡ quantity) }
{
    let contract = Name::new(id).ok_or("a contract")?;
    Ok(Trade { contract, quantity })
}

// `binding`: trades that close the short contract and sell one of the other, twice with the same trader.
fn trades_made(
    rt: &impl Abort,
    alloc: Global,
    tables: &Tables,
    account: &Portfolio,
) -> Result<(), Fail> {
    let mut trader = Trader::new(alloc, tables)?;
    let trades = [trade(b"FA2", 2)?, trade(b"FA", -1)?];
    for _ in 0..2 {
        let after = trader.after(alloc, account.account(), account.holdings(), &trades)?;
        assert!(rt; holds(&after, 0, 2));
    }
    Ok(())
}

// `span_tables`: the holdings in all commodities.
fn lists_held(
    rt: &impl Abort,
    alloc: Global,
    tables: &Tables,
    account: &Portfolio,
) -> Result<(), AllocError>
    requires { fits (length tables.now.contracts) account.now.holdings ≡ true }
{
    let all = gather_all(alloc, tables, account)?;
    assert_eq!(rt; all.len(), 1);
    assert_eq!(rt; all[0].as_held().len(), 2);
    Ok(())
}

// `span_tables`: the holdings in the only commodity, and no holdings.
fn held_of(
    rt: &impl Abort,
    alloc: Global,
    tables: &Tables,
    account: &Portfolio,
) -> Result<OwnedHeld, AllocError>
    requires { fits (length tables.now.contracts) account.now.holdings ≡ true }
{
    assert!(rt; OwnedHeld::none(alloc, tables)?.is_empty());
    assert_eq!(rt; tables.commodities().len(), 1);
    let held = gather(alloc, tables, account, 0)?;
    let run = held.as_held();
    assert_eq!(rt; run.len(), 2);
    assert_eq!(rt; (run.net(0), run.net(1)), (3, -2));
    Ok(held)
}

// Returns whether these are March and June with these deltas, in 10^-8.
fn are_march_and_june(months: &[MonthUnits], march: i64, june: i64) -> bool {
    match months {
        [first, second] => {
            (first.month, first.units.get()) == (202_503, march)
                && (second.month, second.units.get()) == (202_506, june)
        }
        _ => false,
    }
}

// `spread_stage`: two spreads, one against one, at 250 each.
fn spreads_of_months(
    rt: &impl Abort,
    alloc: Global,
    tables: &Tables,
    held: &Held<'_>,
) -> Result<(), Fail> {
    let months = month_deltas(alloc, held)?;
    assert!(rt; are_march_and_june(months.as_slice(), 300_000_000, -200_000_000));
    let begun = start(alloc, &months)?;
    assert!(rt; are_march_and_june(begun.rests(), 300_000_000, -200_000_000));
    let begun = begun.copied(alloc)?;
    assert_eq!(rt; tables.commodities().len(), 1);
    let intra = tables.intras(0).first().ok_or("a spread")?;
    let spread = spread(alloc, &begun, intra)?;
    assert!(rt; are_march_and_june(spread.rests(), 100_000_000, 0));
    assert_eq!(rt; spread.charge(), 5_000_000);
    Ok(())
}

// `inter_credit`: one spread, one against one, for doubled price risks of 2400 and 3600, at half of them.
fn spread_once(alloc: Global, tables: &Tables) -> Result<InterState, Fail>
    requires { length tables.now.commodities ≡ 2 }
{
    let inter = tables.inters().first().ok_or("a spread")?;
    let state = loaded(alloc, (100_000_000, 2400), (-200_000_000, 3600))?;
    let state = state.copied(alloc)?;
    let state = inter_spread(alloc, &state, inter)?;
    Ok(state)
}

// Returns whether two commodities have the residual deltas and the credits of that spread.
fn are_spread_once(state: &InterState) -> bool
    requires { length state.now ≡ 2 }
{
    let rests = (state.states()[0].rest.get(), state.states()[1].rest.get());
    let credits = (credit(state, 0).get(), credit(state, 1).get());
    rests == (0, -100_000_000) && credits == (600, 450)
}

// The residual deltas and the credits of such a spread.
fn spreads_of_commodities(rt: &impl Abort, alloc: Global) -> Result<(), Fail> {
    let tables = two_commodities(rt, alloc)?;
    let state = spread_once(alloc, &tables)?;
    assert_eq!(rt; state.len(), 2);
    assert!(rt; are_spread_once(&state));
    Ok(())
}
