// From the whole input of a program to its question: what is proposed stands first, the table after it.
#![tactic(auto)]

ghost use Rattle.std.specs.Prelude.{◌≡◌, MatchResult, length, drop, ◌+◌, ◌≤◌, ◌<◌};
ghost use Rattle.desk.specs.Answers.{Answered};
ghost use Rattle.reasons.specs.Reason.{outcome_of};
ghost use Rattle.asking.specs.Asking.{check_input, reason_input, arrange_input, add_input, withdraw_input, move_input, change_input, distance_input, signed, proposal_of, wanted_of, newcomer_of, standard_of};

use changes::Newcomer;
use checks::Proposal;
use desk::Site;
use neighbours::Neighbour;
use refusals::Fault;
use studies::Wanted;
use subjects::TERMS;
use survey::Terms;

// The bytes of a proposal, and of what is wanted on one channel.
const PROPOSAL: usize = 12;

const WANTED: usize = 10;

// The bytes of a change up to the table, with the letter that names it.
const ADDED: usize = 17;

const WITHDRAWN: usize = 5;

const MOVED: usize = 7;

// What stands in an input after its first bytes; input that ends before is refused as a table under 8 bytes.
fn after(input: &[u8], count: usize) -> Result<&[u8], Fault>
    ensures { MatchResult result (λ r. (count ≤ length input.now) × (r.now ≡ drop count input.now)) (λ f. (length input.now < count) × (f ≡ Fault.UnderEightBytes)) }
{
    if input.len() < count {
        return Err(Fault::UnderEightBytes);
    }
    Ok(&input[count..])
}

// What a check proposes: channel, class, zone, latitude, longitude.
fn proposal(input: &[u8], terms: Terms) -> Proposal
    requires { 12 ≤ length input.now }
    ensures { result ≡ proposal_of terms input.now }
{
    Proposal {
        channel: u32::from(wire::get::<u16>(input, 0)),
        class: u32::from(wire::get::<u8>(input, 2)),
        zone: u32::from(wire::get::<u8>(input, 3)),
        latitude: wire::get(input, 4),
        longitude: wire::get(input, 8),
        aside: terms.aside,
        standard: terms.standard,
    }
}

// What is wanted on one new channel: class, zone, latitude, longitude.
fn wanted(input: &[u8], terms: Terms, channel: u32) -> Wanted
    requires { 10 ≤ length input.now }
    ensures { result ≡ wanted_of channel channel terms input.now }
{
    Wanted {
        first: channel,
        last: channel,
        class: u32::from(wire::get::<u8>(input, 0)),
        zone: u32::from(wire::get::<u8>(input, 1)),
        latitude: wire::get(input, 2),
        longitude: wire::get(input, 6),
        aside: terms.aside,
        standard: terms.standard,
    }
}

// What is to be added, after the letter: id, channel, class, zone, latitude, longitude.
fn newcomer(input: &[u8]) -> Newcomer
    requires { 17 ≤ length input.now }
    ensures { result ≡ newcomer_of input.now }
{
    Newcomer {
        id: wire::get(input, 1),
        channel: u32::from(wire::get::<u16>(input, 5)),
        class: u32::from(wire::get::<u8>(input, 7)),
        zone: u32::from(wire::get::<u8>(input, 8)),
        latitude: wire::get(input, 9),
        longitude: wire::get(input, 13),
    }
}

// The site at a place: latitude, longitude.
fn site(input: &[u8], at: usize) -> Site
    requires { (at + 8 ≤ length input.now) × (at ≤ 9) }
    ensures { result ≡ record { latitude = signed input.now at; longitude = signed input.now (at + 4) } }
{
    Site {
        latitude: wire::get(input, at),
        longitude: wire::get(input, at + 4),
    }
}

// Check: 12 bytes, and the table.
pub fn asked_check(input: &[u8], terms: Terms, rows: &mut [u32]) -> Result<u32, Fault>
    ensures { Answered (check_input terms input.now) rows.old rows.new result }
{
    let table = after(input, PROPOSAL)?;
    checks::check(table, proposal(input, terms), rows)
}

// Reason: 12 bytes, the terms, and the table.
pub fn asked_reason(input: &[u8]) -> Result<Option<Neighbour>, Fault>
    ensures { outcome_of result ≡ reason_input input.now }
{
    let table = after(input, PROPOSAL + TERMS)?;
    let terms = subjects::terms_at(input, PROPOSAL);
    reasons::answer(table, proposal(input, terms))
}

// The standard that a reason is asked by.
#[tactic(auto, using(ground::proofs::Guards::guards), unfolding(crate::specs::Asking::standard_of, ground::specs::Guard::given))]
pub fn standard_of(input: &[u8]) -> u32
    ensures { result ≡ standard_of input.now }
{
    if input.len() < PROPOSAL + TERMS {
        return 0;
    }
    let asked = subjects::terms_at(input, PROPOSAL);
    asked.standard
}

// Arrange, for one new channel: 10 bytes, and the table.
pub fn asked_arrange(
    input: &[u8],
    terms: Terms,
    channel: u32,
    rows: &mut [u32],
) -> Result<u32, Fault>
    ensures { Answered (arrange_input channel channel terms input.now) rows.old rows.new result }
{
    let table = after(input, WANTED)?;
    arrangements::arrange(table, wanted(input, terms, channel), rows)
}

// Add: the letter, 16 bytes, and the table.
fn asked_add(input: &[u8], image: &mut [u8]) -> Result<u32, Fault>
    ensures { Answered (add_input input.now) image.old image.new result }
{
    let table = after(input, ADDED)?;
    changes::add(table, newcomer(input), image)
}

// Withdraw: the letter, 4 bytes, and the table.
fn asked_withdraw(input: &[u8], image: &mut [u8]) -> Result<u32, Fault>
    ensures { Answered (withdraw_input input.now) image.old image.new result }
{
    let table = after(input, WITHDRAWN)?;
    changes::withdraw(table, wire::get(input, 1), image)
}

// Move: the letter, 6 bytes, and the table.
fn asked_move(input: &[u8], image: &mut [u8]) -> Result<u32, Fault>
    ensures { Answered (move_input input.now) image.old image.new result }
{
    let table = after(input, MOVED)?;
    let channel = u32::from(wire::get::<u16>(input, 5));
    changes::move_to(table, wire::get(input, 1), channel, image)
}

// A change: the letter that names it says what follows.
pub fn asked_change(input: &[u8], image: &mut [u8]) -> Result<u32, Fault>
    ensures { Answered (change_input input.now) image.old image.new result }
{
    if input.is_empty() {
        return Err(Fault::UnderEightBytes);
    }
    let letter: u8 = wire::get(input, 0);
    match letter {
        b'a' => asked_add(input, image),
        b'w' => asked_withdraw(input, image),
        b'm' => asked_move(input, image),
        _ => Err(Fault::UnderEightBytes),
    }
}

// The distance between two sites: the letter `d` and 16 bytes, and nothing after them.
#[tactic(auto, using(ground::proofs::Guards::guards), unfolding(crate::specs::Asking::distance_input, ground::specs::Guard::given))]
pub fn asked_distance(input: &[u8]) -> Result<u32, Fault>
    ensures { result ≡ distance_input input.now }
{
    if input.len() != 17 || wire::get::<u8>(input, 0) != b'd' {
        return Err(Fault::UnderEightBytes);
    }
    desk::distance(site(input, 1), site(input, 9))
}
