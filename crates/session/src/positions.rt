//! The holdings of accounts as lines of a position file (docs/FORMATS.md, Position file).
ghost use Rattle.session.specs.Accounts.{account_records, contract_of, flat_records, held_record, held_records};
ghost use Rattle.session.specs.Positions.{position_line, position_lines};
ghost use Rattle.span_tables.specs.Holdings.{fits};
ghost use Rattle.std.specs.Prelude.{◌≡◌, ◌++◌, ◌<◌, OnOk, length, true};

use span_money::line_fields::{Field, push_line_of_numbers};
use span_tables::name::Name;
use span_tables::portfolios::{Holding, Portfolio};
use span_tables::records::Contract;
use std::alloc::AllocError;

// Appends the line of a position record.
fn push_position(
    out: &mut Vec<u8>,
    account: &Name,
    contract: &Name,
    quantity: i32,
) -> Result<(), AllocError>
    ensures { OnOk result (out.new.items ≡ out.old.items
        ++ position_line (record { account = account.now; contract = contract.now; quantity = quantity })) }
{
    let contract = [Field::Bytes(contract.as_bytes())];
    push_line_of_numbers(out, account.as_str(), &contract, &[i128::from(quantity)])
}

// Appends the record of an account that holds nothing, if the parameter set has a contract.
fn push_flat(out: &mut Vec<u8>, contracts: &[Contract], account: &Name) -> Result<(), AllocError>
    ensures { OnOk result (out.new.items ≡ out.old.items ++ position_lines (flat_records contracts.now account.now)) }
{
    match contracts.first() {
        Some(first) => push_position(out, account, &first.id, 0),
        None => Ok(()),
    }
}

/// Returns the id of the contract of a holding.
pub(crate) fn contract_of<'a>(contracts: &'a [Contract], holding: &Holding) -> &'a Name
    requires { holding.now.contract < length contracts.now }
    ensures { result.now ≡ contract_of contracts.now holding.now }
{
    &contracts[holding.contract as usize].id
}

// Appends the record of a holding.
fn push_holding(
    out: &mut Vec<u8>,
    contracts: &[Contract],
    account: &Name,
    holding: &Holding,
) -> Result<(), AllocError>
    requires { holding.now.contract < length contracts.now }
    ensures { OnOk result (out.new.items ≡ out.old.items ++ position_line (held_record contracts.now account.now holding.now)) }
{
    let contract = contract_of(contracts, holding);
    push_position(out, account, contract, holding.net)
}

// Appends a record for each holding of an account.
fn push_held(
    out: &mut Vec<u8>,
    contracts: &[Contract],
    portfolio: &Portfolio,
) -> Result<(), AllocError>
    requires { fits (length contracts.now) portfolio.now.holdings ≡ true }
    ensures { OnOk result (out.new.items ≡ out.old.items ++ position_lines (held_records contracts.now portfolio.now)) }
{
    for holding in portfolio.holdings() {
        push_holding(out, contracts, portfolio.account(), holding)?;
    }
    Ok(())
}

/// Appends the position records of an account, in the file order of the parameter set.
pub(crate) fn push_records(
    out: &mut Vec<u8>,
    contracts: &[Contract],
    portfolio: &Portfolio,
) -> Result<(), AllocError>
    requires { fits (length contracts.now) portfolio.now.holdings ≡ true }
    ensures { OnOk result (out.new.items ≡ out.old.items ++ position_lines (account_records contracts.now portfolio.now)) }
{
    if portfolio.holdings().is_empty() {
        push_flat(out, contracts, portfolio.account())
    } else {
        push_held(out, contracts, portfolio)
    }
}
