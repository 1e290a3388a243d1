//! Pieces of a position file without a fault, whose records can be numbered concurrently.
ghost use Rattle.std.specs.Prelude.{◌≡◌, ◌<◌, ◌≤◌, ℕ, All, IfOk, IfSome, List, None, OnOk, length, map};
ghost use Rattle.span_csv.specs.near.Pieces.{place_among, renumbered, with_names, AreTogether, HasAccounts, StandFor};
ghost use Rattle.span_tables.specs.near.Positions.{named_positions, AreNumbered};
ghost use Rattle.span_tables.specs.declared.limits.TheConstants.{MAX_ACCOUNTS};

use indexmap::IndexSet;
use span_tables::limits::MAX_ACCOUNTS;
use span_tables::name::Name;
use span_tables::raw::RawPositions;
use span_tables::records::NumberedPosition;
use std::alloc::{AllocError, Global};
use std::marker::Model;

/// The accounts of all pieces of a position file, in the order of first appearance. There are at most `MAX_ACCOUNTS`.
/// Contracts see their names.
#[derive(Drop)]
pub struct AllAccounts {
    accounts: IndexSet<Name>,
}

impl Model for AllAccounts {
    ghost use Rattle.std.specs.Prelude.{◌≤◌, ℕ, List, length};
    ghost use Rattle.span_tables.specs.declared.limits.TheConstants.{MAX_ACCOUNTS};

    ghost Value = { List (List ℕ) };

    ghost view = { λ all. all.accounts.keys };

    ghost invariant = { λ all. length all.accounts.keys ≤ MAX_ACCOUNTS };
}

// Appends each new name to the accounts.
fn add_names(names: &[Name], accounts: &mut IndexSet<Name>) -> Result<(), AllocError>
    ensures { OnOk result (accounts.new.keys ≡ with_names accounts.old.keys names.now) }
{
    for name in names {
        accounts.insert(name.copied())?;
    }
    Ok(())
}

// Returns the index of an account among these, or their number if it is not among them.
fn place_of(accounts: &IndexSet<Name>, name: &Name) -> u16
    requires { length accounts.now.keys ≤ MAX_ACCOUNTS }
    ensures { result ≡ place_among accounts.now.keys name.now }
{
    match accounts.get_index_of(name) {
        Some(place) => place as u16,
        None => accounts.len() as u16,
    }
}

// Returns the index of each name among these accounts.
fn places_of(
    alloc: Global,
    accounts: &IndexSet<Name>,
    names: &[Name],
) -> Result<Vec<u16>, AllocError>
    requires { length accounts.now.keys ≤ MAX_ACCOUNTS }
    ensures { IfOk result (λ places. places.items ≡ map (place_among accounts.now.keys) names.now) }
{
    let mut places = Vec::with_capacity(alloc, names.len())?;
    for name in names {
        places.push(place_of(accounts, name))?;
    }
    Ok(places)
}

// Replaces the account number of each record by the entry of `places` at that index.
fn renumber(places: &[u16], records: &mut [NumberedPosition])
    requires { All (λ p. p.account < length places.now) records.old }
    ensures { records.new ≡ map (renumbered places.now) records.old }
{
    for record in records.iter_mut() {
        record.account = places[record.account as usize];
    }
}

impl AllAccounts {
    /// Returns the accounts of these pieces, or `None` exactly if there are more than `MAX_ACCOUNTS`. Then the file has
    /// a fault, which [`read_positions`](crate::positions::read_positions) finds in the whole file.
    pub fn of(alloc: Global, pieces: &[RawPositions]) -> Result<Option<AllAccounts>, AllocError>
        ensures found { IfOk result (λ found. IfSome found (λ all. AreTogether all pieces.now)) }
        ensures none { IfOk result (λ found. found ≡ None → (all : List (List ℕ)) → AreTogether all pieces.now → ⊥) }
    {
        let mut accounts = IndexSet::new(alloc);
        for piece in pieces {
            add_names(piece.accounts(), &mut accounts)?;
        }
        if accounts.len() > MAX_ACCOUNTS {
            return Ok(None);
        }
        Ok(Some(AllAccounts { accounts }))
    }

    /// Returns the records of a piece, numbered by these accounts, which include the piece's accounts.
    pub fn numbered(
        &self,
        alloc: Global,
        piece: RawPositions,
    ) -> Result<Vec<NumberedPosition>, AllocError>
        requires { HasAccounts self.now piece }
        ensures { IfOk result (λ records. StandFor self.now piece records.items) }
    {
        let places = places_of(alloc, &self.accounts, piece.accounts())?;
        let mut records = piece.into_records();
        renumber(&places, &mut records);
        Ok(records)
    }

    /// Returns the records of the whole file, which are numbered by these accounts.
    pub fn positions(self, records: Vec<NumberedPosition>) -> RawPositions
        requires { AreNumbered self records.items }
        ensures { result ≡ named_positions self records.items }
    {
        RawPositions::new(self.accounts, records)
    }
}
