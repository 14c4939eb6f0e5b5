//! The laws of answers, of exchanges, and of meetings.
ghost use Rattle.td_agreement.specs.Laws.{AnswersAgree, ExchangeIsMerge, PastAnswersAgree, ValuesAgree, VectorsAgree};
ghost use Rattle.td_agreement.specs.Interleaved.{InterleavedMeetingKeepsAll};
ghost use Rattle.td_agreement.specs.Progress.{CutMeetingBringsNew, CutMeetingKeeps, CutMeetingsEnd};
ghost use Rattle.td_agreement.specs.Progress.{CutMeetingsProgress};
ghost use Rattle.td_agreement.specs.CutStreams.{CutAnswerTakesSome, CutFinishLosesNone, CutFinishTakesSome};
ghost use Rattle.td_agreement.specs.CutStreams.{CutReplyTakesSome, CutSettleLosesNone, CutSettleTakesSome};
ghost use Rattle.td_agreement.specs.CutStreams.{CutStreamIsFront};
ghost use Rattle.td_agreement.specs.CutWriters.{FailedAnswerTakesSome, FailedAnswerWritesPrefix, FailedReplyTakesSome};
ghost use Rattle.td_agreement.specs.CutWriters.{FailedSettleWritesPrefix};
ghost use Rattle.td_agreement.specs.CutScopes.{CutAnswerInScope, CutFinishInScope, CutLeftOutStays, CutReplyInScope};
ghost use Rattle.td_agreement.specs.CutScopes.{CutFinishInScopeLosesNone, CutSettleInScope, CutSettleInScopeLosesNone};

/// Sites of one script that hold the same set of entries answer alike: a query, the same as it was just after an entry,
/// what a relvar has, and up to which number each site's entries are held.
pub fn sites_answer_alike()
    ensures answers { AnswersAgree }
    ensures past { PastAnswersAgree }
    ensures values { ValuesAgree }
    ensures vectors { VectorsAgree }
{}

/// Two sets of entries that are exchanged, each by the other's version vector, are merged at both ends.
pub fn exchange_is_merge()
    ensures { ExchangeIsMerge }
{}

/// Whatever calls come between the four steps of a meeting, if a site still holds after them what it held, both sites
/// hold behind the meeting all that either held at its first step, where no two entries of that clash.
pub fn interleaved_meeting_keeps_all()
    ensures { InterleavedMeetingKeepsAll }
{}

/// A meeting that is cut leaves a site what it held, and brings it nothing but what the other one has and sends, each
/// entry new where the site has no gap. With each that brings something new the site lacks fewer of the other one's
/// entries, and after as many as it lacked it has all of them.
pub fn cut_meetings_make_progress()
    ensures keeps { CutMeetingKeeps }
    ensures new { CutMeetingBringsNew }
    ensures progress { CutMeetingsProgress }
    ensures end { CutMeetingsEnd }
{}

/// What is read of a front of the bytes of a stream is a front of its entries, and it ends as a cut stream where bytes
/// lack. So a site to which a front comes of what another one sends takes a front of these entries: `finish` does, and
/// `settle`, where the greeting came whole; and where the bytes just ended the site holds each entry that came whole.
/// A meeting whose answer is cut on its way leaves the first site as it was, or with a front of what the second one
/// sends; and one whose last bytes are cut leaves the second with a front of what the first one sends.
pub fn cut_streams_are_fronts()
    ensures stream { CutStreamIsFront }
    ensures finish { CutFinishTakesSome }
    ensures finish_loses_none { CutFinishLosesNone }
    ensures settle { CutSettleTakesSome }
    ensures settle_loses_none { CutSettleLosesNone }
    ensures answer { CutAnswerTakesSome }
    ensures reply { CutReplyTakesSome }
{}

/// A step whose write fails has written a prefix of what it was to write. The site that reads that, or a prefix of it,
/// stays as it was or takes a prefix of the entries.
pub fn failed_writes_leave_prefixes()
    ensures answer_bytes { FailedAnswerWritesPrefix }
    ensures settle_bytes { FailedSettleWritesPrefix }
    ensures answer { FailedAnswerTakesSome }
    ensures reply { FailedReplyTakesSome }
{}

/// In the scopes that a comparison found, a cut meeting leaves a site with a prefix of the entries that both exchange.
/// So does one whose write fails. The laws of cut meetings then hold of these entries, and what either site leaves out
/// stays as it was.
pub fn cut_meetings_keep_scopes()
    ensures finish { CutFinishInScope }
    ensures finish_loses_none { CutFinishInScopeLosesNone }
    ensures settle { CutSettleInScope }
    ensures settle_loses_none { CutSettleInScopeLosesNone }
    ensures left_out { CutLeftOutStays }
    ensures answer { CutAnswerInScope }
    ensures reply { CutReplyInScope }
{}
