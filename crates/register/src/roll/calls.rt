ghost use Rattle.std.specs.Prelude.{◌≡◌, min, length};
ghost use Rattle.std.specs.List.{slice_get};
ghost use Rattle.units.specs.Refusals.{answer};
ghost use Rattle.register.specs.Rolls.{held, empty, size, enter_answer, after_enter, copied};

use crate::entry::Entry;
use crate::roll::Roll;
use units::refusal::Refusal;

// Questions too take the roll for writing and promise that nothing changed: a rule of the project.
impl<'a, E: Entry> Roll<'a, E> {
    // An empty roll, whatever the memory holds.
    pub fn new(slots: &'a mut [E]) -> Self
        ensures { held result ≡ empty (length slots.old) }
    {
        Roll { slots, count: 0 }
    }

    fn entries(&self) -> &[E]
        ensures { result.now ≡ (held self.now).entries }
    {
        &self.slots[..self.count]
    }

    // The number of entries.
    pub fn len(&mut self) -> usize
        ensures value { result ≡ size (held self.old) }
        ensures same { self.new ≡ self.old }
    {
        self.entries().len()
    }

    // The entry of number `i`, or none where `i` is beyond the last.
    pub fn get(&mut self, i: usize) -> Option<E>
        ensures value { result ≡ slice_get (held self.old).entries i }
        ensures same { self.new ≡ self.old }
    {
        self.entries().get(i).copied()
    }

    // Appends `e` and answers its number. Refuses a field out of range, then a full roll, and changes nothing then.
    pub fn enter(&mut self, e: E) -> Result<usize, Refusal>
        ensures answers { answer result ≡ enter_answer (E.unfit e) E.MOST (held self.old) }
        ensures enters { held self.new ≡ after_enter (E.unfit e) E.MOST (held self.old) e }
    {
        if let Some(field) = e.unfit_field() {
            return Err(Refusal::FieldOutOfRange(field));
        }
        let number = self.count;
        if number >= E::MOST || number >= self.slots.len() {
            return Err(Refusal::RollFull(number));
        }
        self.slots[number] = e;
        self.count = number + 1;
        Ok(number)
    }

    // Copies the entries to the front of `out`, as far as it goes, and answers how many.
    pub fn copy_to(&mut self, out: &mut [E]) -> usize
        ensures count { result ≡ min (size (held self.old)) (length out.old) }
        ensures copied { out.new ≡ copied (held self.old).entries out.old }
        ensures same { self.new ≡ self.old }
    {
        let count = self.count.min(out.len());
        out[..count].copy_from_slice(&self.entries()[..count]);
        count
    }
}
