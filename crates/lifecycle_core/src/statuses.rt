//! The statuses that parts name, found without a walk over all.

ghost use Rattle.std.specs.Prelude.{◌≡◌, is_some, not, IfSome};
ghost use Rattle.std.specs.List.{list_all};
ghost use Rattle.lifecycle_core.specs.Fault as faults;
ghost use Rattle.lifecycle_core.specs.Lifecycle as words;
ghost use Rattle.text_core.specs.Texts as texts;

use crate::parts::{ANY_STATUS, Move, MoveRight, Parts};
use std::alloc::Global;
use std::marker::Model;
use text_core::{Lookup, Text};

/// The statuses of parts whose three lists name none twice. They are seen as these parts.
#[derive(Drop)]
pub(crate) struct Statuses<'a> {
    parts: &'a Parts,
    initial: Lookup<'a>,
    active: Lookup<'a>,
    inactive: Lookup<'a>,
}

impl<'a> Model for Statuses<'a> {
    ghost use Rattle.std.specs.Prelude.{◌≡◌};
    ghost use Rattle.lifecycle_core.specs.declared.parts.Parts.{Parts};

    ghost Value = { Parts };

    ghost view = { λ s. s.parts.now };

    ghost invariant = { λ s. (s.initial ≡ s.parts.now.initial)
        × (s.active ≡ s.parts.now.active) × (s.inactive ≡ s.parts.now.inactive) };
}

impl<'a> Statuses<'a> {
    /// The statuses of the parts, or `None` where one is named twice over the three lists.
    #[tactic(auto, using(text_core::proofs::Repeats::repeats_in_three))]
    pub(crate) fn of(alloc: Global, parts: &'a Parts) -> Option<Statuses<'a>>
        ensures once { is_some result ≡ not (texts.repeats_text (words.statuses parts.now)) }
        ensures parts { IfSome result (λ s. s ≡ parts.now) }
    {
        let initial = Lookup::of(alloc, parts.initial.as_slice())?;
        let active = Lookup::of(alloc, parts.active.as_slice())?;
        let inactive = Lookup::of(alloc, parts.inactive.as_slice())?;
        if active.has_one_of(parts.initial.as_slice())
            || inactive.has_one_of(parts.initial.as_slice())
            || inactive.has_one_of(parts.active.as_slice())
        {
            return None;
        }
        Some(Statuses {
            parts,
            initial,
            active,
            inactive,
        })
    }

    /// Whether all that the parts name as statuses are such.
    pub(crate) fn are_known(&self) -> bool
        ensures { result ≡ faults.knows_statuses self.now }
    {
        self.has(self.parts.on_create.as_str())
            && self.has_texts(self.parts.create.as_slice())
            && self.has_moves(self.parts.moves.as_slice())
            && self.has_rights(self.parts.rights.as_slice())
    }

    /// Whether the text is a status of one of the three lists.
    fn has(&self, text: &str) -> bool
        ensures { result ≡ words.is_status self.now text.now }
    {
        self.initial.contains(text) || self.active.contains(text) || self.inactive.contains(text)
    }

    fn has_texts(&self, texts: &[Text]) -> bool
        ensures { result ≡ list_all (words.is_status self.now) texts.now }
    {
        texts.iter().all(|t| self.has(t.as_str()))
    }

    fn has_moves(&self, moves: &[Move]) -> bool
        ensures { result ≡ list_all (faults.knows_move self.now) moves.now }
    {
        moves
            .iter()
            .all(|m| self.has(m.from.as_str()) && self.has(m.to.as_str()))
    }

    fn has_rights(&self, rights: &[MoveRight]) -> bool
        ensures { result ≡ list_all (faults.knows_entry self.now) rights.now }
    {
        rights.iter().all(|entry| self.has_or_any(entry.from.as_str())
            && self.has_or_any(entry.to.as_str()))
    }

    fn has_or_any(&self, text: &str) -> bool
        ensures { result ≡ faults.is_status_or_any self.now text.now }
    {
        text == ANY_STATUS || self.has(text)
    }
}
