//! Terms: an announcement that is in order, dated in Eastern time.
ghost use Rattle.std.specs.Prelude.{◌≡◌, ◌-◌};
ghost use Rattle.tb_terms.specs.Eastern.{start_of, closing_of};

use crate::announcement::Announcement;
use tb_units::{Days, Moment};

/// An announcement with its days and its moments: the two closings, and the starts of its issue and maturity dates.
/// These are those of the announcement, by the type.
#[derive(Clone, Copy, Debug, PartialEq, Eq)]
pub struct Terms {
    pub announcement: Announcement,
    pub days: Days,
    pub nc_moment: Moment,
    pub c_moment: Moment,
    pub issue_moment: Moment,
    pub maturity_moment: Moment,
    ghost days_are: { days.count ≡ announcement.maturity.number - announcement.issue.number },
    ghost noncompetitive: { nc_moment.seconds ≡ closing_of announcement.auction_date.number announcement.nc_close },
    ghost competitive: { c_moment.seconds ≡ closing_of announcement.auction_date.number announcement.c_close },
    ghost issued: { issue_moment.seconds ≡ start_of announcement.issue.number },
    ghost matures: { maturity_moment.seconds ≡ start_of announcement.maturity.number },
}
