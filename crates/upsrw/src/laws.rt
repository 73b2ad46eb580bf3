//! Laws of the definitions that the contracts of this crate cite. No program calls them.
ghost use Rattle.upsrw.specs.Forms.{EachFormAsksForItsJob};

/// `upsrw` takes the words of each of its forms, and does that form's job: of `upsrw su` and of
/// `upsrw -s a=b -u u -p p su`, tracked or not. An order without a user, or a user without an
/// order, asks for nothing.
pub fn each_form_asks_for_its_job()
    ensures { EachFormAsksForItsJob }
{}
