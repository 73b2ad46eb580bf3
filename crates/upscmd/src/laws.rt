//! Laws of the definitions that the contracts of this crate cite. No program calls them.
ghost use Rattle.upscmd.specs.Forms.{EachFormAsksForItsJob};

/// `upscmd` takes the words of each of its forms, and does that form's job: of `upscmd -l su` and
/// of `upscmd -u a -p b su test.battery.start`, with a value or none, tracked or not. A command
/// with `-l`, or without a user, asks for nothing.
pub fn each_form_asks_for_its_job()
    ensures { EachFormAsksForItsJob }
{}
