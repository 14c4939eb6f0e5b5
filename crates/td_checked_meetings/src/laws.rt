//! The laws of meetings that leave sites out.

ghost use Rattle.td_checked_meetings.specs.Laws.{BeyondStays, BySite, LeftOutStays};

/// What either of two sites leaves out, and what is beyond the sender's vector, stays at each as it was.
pub fn what_is_left_out_stays()
    ensures left_out { LeftOutStays }
    ensures beyond { BeyondStays }
{}

/// Of each site that neither leaves out, that has no gap and no clash, both hold after a meeting what either held.
pub fn meeting_joins_by_site()
    ensures { BySite }
{}
