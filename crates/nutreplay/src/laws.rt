//! Laws of every transcript. No program calls them.
ghost use Rattle.nutreplay.specs.OneRun.{ARecordReplaysToItsRun, AnOutputRecordsOneRun};
ghost use Rattle.nutreplay.specs.Recorded.{ARecordIsOfItsEvents};
ghost use Rattle.nutreplay.specs.Written.{AHeadIsRead, WhatIsWrittenIsReadBack};

use nutcore::laws::what_was_sent_and_is_owed_is_the_answers;
use nutio::Sink;

/// A transcript lists what each client took in the one run of the script's events.
pub fn an_output_records_one_run()
    ensures { AnOutputRecordsOneRun }
{
    what_was_sent_and_is_owed_is_the_answers();
}

/// After a script that is read as some events, the line that is written of the next one is read
/// as that event.
pub fn what_is_written_is_read_back()
    ensures { WhatIsWrittenIsReadBack }
{}

/// The head of a record is read as no events, of a server of the greatest age that it says.
pub fn a_head_is_read()
    ensures { AHeadIsRead }
{}

/// Once what waits is written, the file of a recorder is read as exactly the events that it
/// recorded, and says the greatest age of their server. Or the record has ended, with a beginning
/// of its head or of their lines, the last perhaps cut. The writer reports its contents, as the
/// program's own file does not.
pub fn a_record_is_of_its_events<W: Sink + Drop>()
    ensures { ARecordIsOfItsEvents W.contents W.failures }
{}

/// A script that is read as the events of a run replays over the same files, with its greatest age.
/// The replay is a run of the same events. Where memory was refused in neither, it is the same run,
/// with the same bytes sent.
pub fn a_record_replays_to_its_run()
    ensures { ARecordReplaysToItsRun }
{
    an_output_records_one_run();
}
