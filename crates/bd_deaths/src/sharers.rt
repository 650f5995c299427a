//! How many notifications of a process have a cookie, and how many of these are told.

ghost use Rattle.std.specs.Prelude.{ℕ, ◌≡◌, ◌≤◌, ◌<◌, ◌+◌, ◌-◌, if◌then◌else◌};
ghost use Rattle.bd_keys.specs.{declared.key.WordKey.{WordKey}, Keys.{same_word}, Look.{look, word_room}};
ghost use Rattle.bd_space.specs.Deaths as deaths_of;
ghost use Rattle.bd_deaths.specs.Shared.{cookie_of, count_at, told_at, one_if, AreKept};

use bd_keys::{WordKey, WordMap};
use bd_space::{DeathNotification, Phase};

/// The notifications of a process that have a cookie.
#[derive(Clone, Copy)]
pub struct Sharers {
    pub count: usize,
    pub told: usize,
    // Where the one was kept that was told last. A guess: whoever asks looks at what is kept there.
    pub latest: usize,
}

// Of a cookie that no notification has.
const NONE: Sharers = Sharers {
    count: 0,
    told: 0,
    latest: 0,
};

pub(crate) fn is_told(phase: Phase) -> bool
    ensures { result ≡ deaths_of.is_told phase }
{
    matches!(phase, Phase::Told)
}

// 1 where it is told.
fn told_as(phase: Phase) -> usize
    ensures { result ≡ one_if (deaths_of.is_told phase) }
{
    match phase {
        Phase::Told => 1,
        _ => 0,
    }
}

/// Those with a cookie.
pub(crate) fn sharers_at(cookies: &WordMap<Sharers>, key: WordKey) -> Sharers
    ensures count { result.count ≡ count_at cookies.now key }
    ensures told { result.told ≡ told_at cookies.now key }
{
    match cookies.get(key) {
        Some(sharers) => sharers,
        None => NONE,
    }
}

/// One more has its cookie. It is kept there.
pub(crate) fn add_sharer(cookies: &mut WordMap<Sharers>, x: &DeathNotification, at: usize)
    requires { 1 ≤ word_room cookies.old }
    ensures counted { count_at cookies.old (cookie_of x.now) < 18446744073709551615 → (k : WordKey) → count_at cookies.new k
        ≡ count_at cookies.old k + one_if (same_word (cookie_of x.now) k) }
    ensures tolds { told_at cookies.old (cookie_of x.now) < 18446744073709551615 → (k : WordKey) → told_at cookies.new k
        ≡ (if same_word (cookie_of x.now) k then told_at cookies.old k + one_if (deaths_of.is_told x.now.phase) else told_at cookies.old k) }
    ensures kept { AreKept cookies.old → AreKept cookies.new }
    ensures room { word_room cookies.old ≤ word_room cookies.new + 1 }
{
    let key = WordKey {
        process: x.process,
        word: x.cookie,
    };
    let was = sharers_at(cookies, key);
    let count = was.count.saturating_add(1);
    let told = was.told.saturating_add(told_as(x.phase));
    let sharers = Sharers {
        count,
        told,
        latest: at,
    };
    cookies.insert(key, sharers);
}

/// One less has its cookie.
pub(crate) fn remove_sharer(cookies: &mut WordMap<Sharers>, x: &DeathNotification)
    ensures counted { (k : WordKey) → count_at cookies.new k ≡ count_at cookies.old k - one_if (same_word (cookie_of x.now) k) }
    ensures tolds { told_at cookies.old (cookie_of x.now) + 1 ≤ count_at cookies.old (cookie_of x.now) + one_if (deaths_of.is_told x.now.phase)
        → (k : WordKey) → told_at cookies.new k
        ≡ (if same_word (cookie_of x.now) k then told_at cookies.old k - one_if (deaths_of.is_told x.now.phase) else told_at cookies.old k) }
    ensures kept { AreKept cookies.old → AreKept cookies.new }
    ensures room { word_room cookies.old ≤ word_room cookies.new }
{
    let key = WordKey {
        process: x.process,
        word: x.cookie,
    };
    let was = sharers_at(cookies, key);
    if was.count <= 1 {
        let _gone = cookies.remove(key);
        return;
    }
    let told = was.told.saturating_sub(told_as(x.phase));
    let sharers = Sharers {
        count: was.count - 1,
        told,
        ..was
    };
    cookies.set(key, sharers);
}

// Where the one was kept that was told last, if one that is kept here is this far now.
fn latest_of(at: usize, was: usize, phase: Phase) -> usize {
    if is_told(phase) { at } else { was }
}

/// One of them is this far. It is kept there.
pub(crate) fn turn_sharer(
    cookies: &mut WordMap<Sharers>,
    x: &DeathNotification,
    at: usize,
    phase: Phase,
)
    ensures counted { (k : WordKey) → count_at cookies.new k ≡ count_at cookies.old k }
    ensures tolds { 0 < count_at cookies.old (cookie_of x.now)
        → told_at cookies.old (cookie_of x.now) + 1 ≤ count_at cookies.old (cookie_of x.now) + one_if (deaths_of.is_told x.now.phase)
        → (k : WordKey) → told_at cookies.new k ≡ (if same_word (cookie_of x.now) k
        then told_at cookies.old k - one_if (deaths_of.is_told x.now.phase) + one_if (deaths_of.is_told phase) else told_at cookies.old k) }
    ensures kept { AreKept cookies.old → AreKept cookies.new }
    ensures room { word_room cookies.old ≤ word_room cookies.new }
{
    let key = WordKey {
        process: x.process,
        word: x.cookie,
    };
    let was = sharers_at(cookies, key);
    let others = was.told.saturating_sub(told_as(x.phase));
    let told = others.saturating_add(told_as(phase));
    let sharers = Sharers {
        told,
        latest: latest_of(at, was.latest, phase),
        ..was
    };
    cookies.set(key, sharers);
}
