//! Whole sessions: the requests of a desk, and their answers, one after the other.
ghost use Rattle.desks.specs.Events.{Logs, told_by};
ghost use Rattle.session.specs.Conversations.{AreFromSource, IsServed, Turn, answer_of, answer_text, opening_text, state_after};
ghost use Rattle.session.specs.Conversations.{state_behind};
ghost use Rattle.std.specs.Prelude.{◌≡◌, ◌⊎◌, ◌-◌, ◌^◌, [], ◌∷◌, Err, IfErr, List, None, OnOk, Some, if◌then◌else◌, length, ℕ};

use crate::answer_texts::refused_memory;
use crate::session::{Opened, Workers, refuse_long};
use desks::desk::{Desk, DeskFault, Taken};
use sources::Sources;
use std::sync::Wait;
use std::thread::Threads;
use std::time::Clock;
use worker_pool::gates::Gate;

// Answers one request of a desk. The desk has kept its line, unless the line is too long.
fn serve_one<D: Desk, S: Sources, R: Threads + Wait + Clock + Sync, G: Gate>(
    desk: &mut D,
    sources: &mut S,
    workers: &Workers<'_, R, G>,
    opened: &mut Opened,
    number: u64,
    is_kept: bool,
) -> Result<(), DeskFault>
    ensures served { (turn : Turn) × (turn.request ≡ (if is_kept then Some (D.line desk.old) else None))
        × AreFromSource (S.file sources.old) S.reads sources.old (turn ∷ []) sources.new
        × (opened.new.session ≡ state_after opened.old.session (answer_of opened.old.session turn))
        × Logs D.log desk.old (told_by result (answer_text number (answer_of opened.old.session turn))) desk.new }
    ensures fault { IfErr result (λ e. (e ≡ DeskFault.Output) × D.unwritten desk.new) }
    ensures sources { (n : List ℕ) → S.file sources.new n ≡ S.file sources.old n }
{
    let Opened { session, text } = opened;
    let answered = if is_kept {
        session.answer(workers, sources, text, number, desk.line())
    } else {
        refuse_long(text, number)
    };
    match answered {
        Ok(()) => desk.tell(text),
        Err(_) => desk.tell(refused_memory(number).as_bytes()),
    }
}

/// Serves a session at a desk: writes its first answer, and then answers each request before it takes the next one. The
/// session ends with the last request, or after request 18446744073709551615. `opened` then has the state after the
/// requests that were taken.
pub fn run<D: Desk, S: Sources, R: Threads + Wait + Clock + Sync, G: Gate>(
    desk: &mut D,
    sources: &mut S,
    workers: &Workers<'_, R, G>,
    opened: &mut Opened,
) -> Result<(), DeskFault>
    requires { opened.old.text.items ≡ opening_text opened.old.session }
    ensures served { (turns : List Turn) × AreFromSource (S.file sources.old) S.reads sources.old turns sources.new
        × IsServed opened.old.session result turns (λ events. Logs D.log desk.old events desk.new)
        × OnOk result (D.at_end desk.new ⊎ (length turns ≡ 2 ^ 64 - 1))
        × (opened.new.session ≡ state_behind opened.old.session turns) }
    ensures input { result ≡ Err DeskFault.Input → D.cut_off desk.new }
    ensures output { result ≡ Err DeskFault.Output → D.unwritten desk.new }
{
    desk.tell(&opened.text)?;
    let mut number = 0;
    while number < u64::MAX {
        number += 1;
        let taken = desk.next()?;
        if taken == Taken::End {
            return Ok(());
        }
        serve_one(desk, sources, workers, opened, number, taken == Taken::Line)?;
    }
    Ok(())
}
