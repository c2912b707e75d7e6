// Labels: the silent step, the mark of an idle, and which labels shake hands.
ghost use Rattle.std.specs.Prelude.{◌≡◌, eqb, leb};
ghost use Rattle.labels.specs.Labels.{of_pairs, count, pairing, check_labels, any_partner, partner_found};

use crate::refusal::Refusal;

// A label by its number.
#[derive(Clone, Copy, PartialEq, Eq, PartialOrd, Ord)]
pub struct Label(pub u8);

impl Label {
    // The silent step.
    pub const SILENT: Label = Label(0);

    // Marks an idle, and is never in a row.
    pub const IDLE: Label = Label(255);

    pub fn is_silent(self) -> bool
        ensures { result ≡ eqb self.0 0 }
    {
        self == Label::SILENT
    }

    pub fn is_idle(self) -> bool
        ensures { result ≡ eqb self.0 255 }
    {
        self == Label::IDLE
    }

    // Of an odd label the next number, of an even one the number before. The silent step and the mark of an idle have
    // none.
    pub fn partner(self) -> Option<Label>
        ensures { result ≡ partner_found (any_partner self.0) }
    {
        if self.is_silent() || self.is_idle() {
            return None;
        }
        let code = self.0;
        if code % 2 == 1 {
            Some(Label(code + 1))
        } else {
            Some(Label(code - 1))
        }
    }
}

// The labels of one call, held as k, their number of handshake pairs.
#[derive(Clone, Copy)]
pub struct Labels {
    pub pairs: u8,
}

impl Labels {
    // The labels of k pairs, whatever k is: a call that takes them judges k.
    pub fn of_pairs(k: u8) -> Labels
        ensures { result ≡ of_pairs k }
    {
        Labels { pairs: k }
    }

    // The highest label: they are 0 to 2k. A byte's labels end at 254, since 255 marks an idle.
    pub fn count(self) -> u8
        ensures { result ≡ count self }
    {
        2 * self.pairs.min(127)
    }

    // Is this one of the labels? Their numbers are compared: the highest one is told as a number.
    pub fn has(self, label: Label) -> bool
        ensures { result ≡ leb label.0 (count self) }
    {
        label.0 <= self.count()
    }

    // The partner of a label of the call; what is no label of it has none.
    pub fn partner(self, label: Label) -> Option<Label>
        ensures { result ≡ partner_found ((pairing self).partner label.0) }
    {
        if self.has(label) {
            label.partner()
        } else {
            None
        }
    }

    // k over 15 is 4.
    #[tactic(auto, unfolding(crate::specs::Labels::check_labels))]
    pub fn check(self) -> Result<(), Refusal>
        ensures { result ≡ check_labels self }
    {
        if 15 < self.pairs {
            return Err(Refusal::TooManyPairs);
        }
        Ok(())
    }
}
