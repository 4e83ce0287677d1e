// The days that end in a leap second: which they are, how many lie before a day, when a day begins and how long it lasts.
#![tactic(auto)]

ghost use Rattle.std.specs.Prelude.{◌≡◌, [], ◌∷◌, ◌≤◌, ◌<◌};
ghost use Rattle.num_whole.specs.Tests.{up_to};
ghost use Rattle.num_limits.specs.Capacities.{last_day, day_after_last};
ghost use Rattle.days_leap.specs.Leap.{days_before, is_listed, listed_before, last_ms, day_start};
ghost use Rattle.days_leap.specs.Parts.{listed_most, start_most};

// ---- the listed days

// Document 02, #103: "the IERS list (27 of them, 1972 Jun 30 to 2016 Dec 31)", each by its day number: the end of June or of December of a year.
const JUNE_1972: u32 = 8217;

const DECEMBER_1972: u32 = 8401;

const DECEMBER_1973: u32 = 8766;

const DECEMBER_1974: u32 = 9131;

const DECEMBER_1975: u32 = 9496;

const DECEMBER_1976: u32 = 9862;

const DECEMBER_1977: u32 = 10227;

const DECEMBER_1978: u32 = 10592;

const DECEMBER_1979: u32 = 10957;

const JUNE_1981: u32 = 11504;

const JUNE_1982: u32 = 11869;

const JUNE_1983: u32 = 12234;

const JUNE_1985: u32 = 12965;

const DECEMBER_1987: u32 = 13879;

const DECEMBER_1989: u32 = 14610;

const DECEMBER_1990: u32 = 14975;

const JUNE_1992: u32 = 15522;

const JUNE_1993: u32 = 15887;

const JUNE_1994: u32 = 16252;

const DECEMBER_1995: u32 = 16801;

const JUNE_1997: u32 = 17348;

const DECEMBER_1998: u32 = 17897;

const DECEMBER_2005: u32 = 20454;

const DECEMBER_2008: u32 = 21550;

const JUNE_2012: u32 = 22827;

const JUNE_2015: u32 = 23922;

const DECEMBER_2016: u32 = 24472;

const LISTED_MOST: u32 = 27;

// How many of six days, each after the one before it, lie before a day.
fn of_six(day: u32, a: u32, b: u32, c: u32, d: u32, e: u32, f: u32) -> u32
    requires { (a < b) × (b < c) × (c < d) × (d < e) × (e < f) }
    ensures { (result ≡ days_before day (a ∷ b ∷ c ∷ d ∷ e ∷ f ∷ [])) × (result ≤ 6) }
{
    if day <= c {
        if day <= a {
            return 0;
        }
        if day <= b {
            return 1;
        }
        return 2;
    }
    if day <= e {
        if day <= d {
            return 3;
        }
        return 4;
    }
    if day <= f {
        return 5;
    }
    6
}

// How many listed days lie before a day: five comparisons, by sixes and the days between them.
fn listed_among(day: u32) -> u32
    ensures { (result ≡ listed_before day) × (result ≤ listed_most) }
{
    if day <= DECEMBER_1987 {
        if day <= DECEMBER_1977 {
            return of_six(
                day,
                JUNE_1972,
                DECEMBER_1972,
                DECEMBER_1973,
                DECEMBER_1974,
                DECEMBER_1975,
                DECEMBER_1976,
            );
        }
        return 7
            + of_six(
                day,
                DECEMBER_1978,
                DECEMBER_1979,
                JUNE_1981,
                JUNE_1982,
                JUNE_1983,
                JUNE_1985,
            );
    }
    if day <= JUNE_1997 {
        return 14
            + of_six(
                day,
                DECEMBER_1989,
                DECEMBER_1990,
                JUNE_1992,
                JUNE_1993,
                JUNE_1994,
                DECEMBER_1995,
            );
    }
    21 + of_six(
        day,
        DECEMBER_1998,
        DECEMBER_2005,
        DECEMBER_2008,
        JUNE_2012,
        JUNE_2015,
        DECEMBER_2016,
    )
}

// The same: before the first and after the last of them one comparison tells.
fn listed_before(day: u32) -> u32
    ensures { (result ≡ listed_before day) × (result ≤ listed_most) }
{
    if day <= JUNE_1972 {
        return 0;
    }
    if DECEMBER_2016 < day {
        return LISTED_MOST;
    }
    listed_among(day)
}

// ---- the time of a day

// The milliseconds of a day without a leap second, and of a second.
const COMMON_LENGTH: u64 = 86400000;

const SECOND: u64 = 1000;

fn is_listed(day: u32) -> bool
    requires { day ≤ last_day }
    ensures { result ≡ is_listed day }
{
    listed_before(day) < listed_before(day + 1)
}

// Whether a day has such a millisecond: the list is looked at only where a second more decides.
pub fn in_day(day: u32, ms: u32) -> bool
    requires { day ≤ last_day }
    ensures { result ≡ up_to ms (last_ms day) }
{
    if (ms as u64) < COMMON_LENGTH {
        return true;
    }
    if (ms as u64) < COMMON_LENGTH + SECOND {
        return is_listed(day);
    }
    false
}

// The time at which a day begins.
pub fn start(day: u32) -> u64
    requires { day ≤ day_after_last }
    ensures { (result ≡ day_start day) × (result ≤ start_most) }
{
    day as u64 * COMMON_LENGTH + SECOND * listed_before(day) as u64
}
