//! Laws of the definitions that the contracts of this crate cite. No program calls them.
ghost use Rattle.upsc.specs.Forms.{EachFormAsksForItsJob};

/// `upsc` takes the words of each of its forms, and does that form's job: of `upsc su`,
/// `upsc su@host:3494 ups.status`, `upsc -l host` and so on. Words of two forms, and of none, ask
/// for nothing.
pub fn each_form_asks_for_its_job()
    ensures { EachFormAsksForItsJob }
{}
