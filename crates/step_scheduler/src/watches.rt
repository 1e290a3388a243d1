//! Watches: trace hooks of whole runs.
use crate::events::Event;

/// A trace hook that a whole run calls for each step, with the step's number in the plan, in front of the calculation
/// that covers the step.
pub trait Watch {
    fn pass(&self, step: usize);

    /// Returns whether `pass` does nothing, so that a run leaves the calls out.
    #[inline(always)]
    fn is_idle(&self) -> bool {
        false
    }
}

/// A watch that does nothing.
#[derive(Clone, Copy, Debug, Default)]
pub struct NoWatch;

impl Watch for NoWatch {
    #[inline(always)]
    fn pass(&self, _step: usize) {}

    #[inline(always)]
    fn is_idle(&self) -> bool {
        true
    }
}

// The events of a course for which a watch was not called yet, and the number of groups for which it was. A group has
// the steps that follow one another by number: the steps of a commodity except its figures, or the steps between
// commodities.
#[derive(Drop)]
pub(crate) struct Upcoming<'a, W: Watch> {
    events: &'a [Event],
    groups: usize,
    watch: &'a W,
}

impl<'a, W: Watch> Upcoming<'a, W> {
    // Returns all events of a course, or none if the watch is idle.
    pub(crate) fn all(events: &'a [Event], watch: &'a W) -> Upcoming<'a, W> {
        let events = if watch.is_idle() { &[] } else { events };
        Upcoming {
            events,
            groups: 0,
            watch,
        }
    }

    // Calls the watch for the steps of the next group.
    fn pass_group(&mut self) {
        let events = self.events;
        let mut next = None;
        for place in 0..events.len() {
            if let Event::Take(step) = events[place] {
                if next.is_some_and(|number| number != step) {
                    self.events = &events[place..];
                    return;
                }
                self.watch.pass(step as usize);
                next = step.checked_add(1);
            }
        }
        self.events = &[];
    }

    // Calls the watch for the steps of the first groups, as far as it was not called for them yet.
    #[inline(always)]
    pub(crate) fn pass_groups(&mut self, count: usize) {
        if self.events.is_empty() {
            return;
        }
        for _ in self.groups..count {
            self.pass_group();
        }
        self.groups = self.groups.max(count);
    }

    // Calls the watch for all other steps.
    pub(crate) fn pass_all(&mut self) {
        for event in self.events {
            if let Event::Take(step) = *event {
                self.watch.pass(step as usize);
            }
        }
        self.events = &[];
    }
}
