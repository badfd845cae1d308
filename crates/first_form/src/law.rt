// What holds of the trees of the first form.

ghost use Rattle.first_form.specs.Laws.{OneForm, SoundForm};

/// A file has one tree of the first form at most, and its unit names declared variables alone.
pub fn form_laws()
    ensures one { OneForm }
    ensures sound { SoundForm }
{}
