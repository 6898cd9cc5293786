//! What a node offered in vain: a peer that asks again is first offered what else it lacks.
ghost use Rattle.std.specs.Prelude.{◌≡◌, [], take, IfOk, IfErr, IfSome};
ghost use Rattle.sb_session.specs.Handlers.{IsRefusal};
ghost use Rattle.sb_handlers.specs.Deferring as spec;
ghost use Rattle.sb_handlers.specs.KeptOffers as kept_spec;

use sb_digest::{Digest, Pair};
use sb_holdings::Report;
use sb_session::{Handler, ReceivedDelta};
use sb_types::{Block, Delta, Fault, Name, OWNERS_MOST};
use std::alloc::Global;
use std::sync::{Mutex, Wait};

/// How many offers a node keeps in all between sessions.
const OFFERS_MOST: usize = 65_536;

/// How far a peer holds an owner, as its digest says.
#[derive(Clone, Copy, PartialEq, Eq)]
struct Standing {
    held: u64,
    /// Above which version a sender starts whose own floor is above `held`.
    progress: u64,
    /// Under which floor it starts.
    floor: u64,
}

/// That a peer was offered a block of an owner, how far it held the owner by then, and how often that was.
#[derive(Clone, Copy)]
struct Offer {
    owner: Name,
    standing: Standing,
    times: u64,
    /// Whether a later answer had no block of the owner.
    was_deferred: bool,
}

/// What one peer was offered. The node does not know that the peer took it.
#[derive(Drop)]
struct PeerOffers {
    all: Vec<Offer>,
}

/// The next number, or the same if that is the greatest.
fn one_more(number: u64) -> u64
    ensures { result ≡ spec.one_more number }
{
    if number < u64::MAX {
        number + 1
    } else {
        number
    }
}

/// How far the sender of a digest holds an owner.
fn standing_in(theirs: &Digest, owner: &Name) -> Standing
    ensures { result ≡ spec.standing_in theirs.now owner.now }
{
    let held = theirs.start(owner, 0, u64::MAX).after;
    let stage = theirs.start(owner, one_more(held), u64::MAX);
    Standing {
        held,
        progress: stage.after,
        floor: stage.floor,
    }
}

/// Whether the sender of a digest holds the owner no further than when this was offered.
fn is_in_vain(theirs: &Digest, offer: &Offer) -> bool
    ensures { result ≡ spec.is_in_vain theirs.now offer.now }
{
    theirs.covers(&offer.owner) && standing_in(theirs, &offer.owner) == offer.standing
}

/// Whether the sender of a digest may hold the owner no further than when this was offered.
fn is_open(theirs: &Digest, offer: &Offer) -> bool
    ensures { result ≡ spec.is_open theirs.now offer.now }
{
    !theirs.covers(&offer.owner) || standing_in(theirs, &offer.owner) == offer.standing
}

/// Which owners were offered in vain more often than so many times. `NoMemory`.
fn owners_above(
    alloc: Global,
    offers: &[Offer],
    theirs: &Digest,
    times: u64,
) -> Result<Vec<Name>, Fault>
    ensures owners { IfOk result (λ owners. owners.items ≡ spec.owners_above offers.now theirs.now times) }
    ensures memory { IfErr result (λ fault. fault ≡ Fault.NoMemory) }
{
    let mut owners = Vec::new(alloc);
    for offer in offers {
        if offer.times > times && is_in_vain(theirs, offer) {
            owners.push(offer.owner)?;
        }
    }
    Ok(owners)
}

/// Whether something was offered in vain, and not deferred since.
fn is_any_new(offers: &[Offer], theirs: &Digest) -> bool
    ensures { result ≡ spec.is_any_new offers.now theirs.now }
{
    offers
        .iter()
        .any(|offer| !offer.was_deferred && is_in_vain(theirs, offer))
}

/// How often an owner was offered in vain, the least of all. The greatest number if none was.
fn least_times(offers: &[Offer], theirs: &Digest) -> u64
    ensures { result ≡ spec.least_times offers.now theirs.now }
{
    let mut least = u64::MAX;
    for offer in offers {
        if offer.times < least && is_in_vain(theirs, offer) {
            least = offer.times;
        }
    }
    least
}

/// Whether an owner is one of these.
fn is_among(owners: &[Name], owner: &Name) -> bool
    ensures { result ≡ spec.is_among owners.now owner.now }
{
    owners.iter().any(|among| among == owner)
}

/// These pairs, but these owners are held as far as can be. `NoMemory`.
fn pairs_with_held(alloc: Global, pairs: &[Pair], owners: &[Name]) -> Result<Vec<Pair>, Fault>
    ensures pairs { IfOk result (λ all. all.items ≡ spec.pairs_with_held owners.now pairs.now) }
    ensures memory { IfErr result (λ fault. fault ≡ Fault.NoMemory) }
{
    let mut all = Vec::new(alloc);
    for pair in pairs {
        if !is_among(owners, &pair.owner) {
            all.push(*pair)?;
        }
    }
    for owner in owners {
        all.push(Pair::new(*owner, u64::MAX, None))?;
    }
    Ok(all)
}

/// The digest in which these owners are held as far as can be, if it has room for them. None also if memory is missing.
fn with_held(alloc: Global, theirs: &Digest, owners: &[Name]) -> Option<Digest>
    ensures { IfSome result (spec.IsWithHeld owners.now theirs.now) }
{
    let mut pairs = pairs_with_held(alloc, theirs.pairs(), owners).ok()?;
    pairs.sort_unstable_by_key(|pair| pair.owner);
    Digest::new(theirs.want(), theirs.from(), theirs.until(), pairs).ok()
}

/// How often the owner of a block was offered in vain before.
fn times_before(offers: &[Offer], owner: &Name) -> u64
    ensures { result ≡ spec.times_before offers.now owner.now }
{
    for offer in offers {
        if offer.owner == *owner {
            return offer.times;
        }
    }
    0
}

/// Whether a block of the owner is among these.
fn has_block(blocks: &[Block], owner: &Name) -> bool
    ensures { result ≡ spec.has_block blocks.now owner.now }
{
    blocks.iter().any(|block| block.owner() == owner)
}

/// The offer after an answer to this digest without a block of the owner.
fn deferred(theirs: &Digest, offer: Offer) -> Offer
    ensures { result ≡ spec.deferred theirs.now offer }
{
    Offer {
        was_deferred: offer.was_deferred || theirs.covers(&offer.owner),
        ..offer
    }
}

/// These offers, each of which is open, after these blocks were offered too. `NoMemory`.
fn offers_after(
    alloc: Global,
    offers: &[Offer],
    theirs: &Digest,
    blocks: &[Block],
) -> Result<Vec<Offer>, Fault>
    ensures offers { IfOk result (λ all. all.items ≡ spec.offers_after offers.now theirs.now blocks.now) }
    ensures memory { IfErr result (λ fault. fault ≡ Fault.NoMemory) }
{
    let mut all = Vec::new(alloc);
    for offer in offers {
        if !has_block(blocks, &offer.owner) {
            all.push(deferred(theirs, *offer))?;
        }
    }
    for block in blocks {
        all.push(Offer {
            owner: *block.owner(),
            standing: standing_in(theirs, block.owner()),
            times: one_more(times_before(offers, block.owner())),
            was_deferred: false,
        })?;
    }
    Ok(all)
}

/// Drops those that are not open.
fn keep_open(offers: &mut Vec<Offer>, theirs: &Digest)
    ensures { offers.new.items ≡ spec.open_offers theirs.now offers.old.items }
{
    offers.retain(|offer| is_open(theirs, offer));
}

/// The delta, if it has a block.
fn unless_empty(delta: Delta) -> Option<Delta>
    ensures { result ≡ spec.unless_empty delta }
{
    if delta.blocks().is_empty() {
        None
    } else {
        Some(delta)
    }
}

impl PeerOffers {
    /// It was offered nothing. It takes no memory.
    fn new(alloc: Global) -> PeerOffers
        ensures { result.all.items ≡ [] }
    {
        PeerOffers {
            all: Vec::new(alloc),
        }
    }

    /// Notes that these blocks answer a digest. All is forgotten if memory is missing.
    fn note(&mut self, alloc: Global, theirs: &Digest, blocks: &[Block])
        ensures { spec.IsNoted self.old.all.items theirs.now blocks.now self.new.all.items }
    {
        keep_open(&mut self.all, theirs);
        match offers_after(alloc, &self.all, theirs, blocks) {
            Ok(all) => self.all = all,
            Err(_) => self.all.clear(),
        }
    }
}

/// Who asks.
#[derive(Clone, Copy, PartialEq, Eq)]
pub enum Asker {
    /// The peer at this index, which the node dialed.
    Dialed(usize),
    /// A peer of this name, which dialed the node.
    Named(Name),
}

/// What one asker was offered.
#[derive(Drop)]
struct AskerOffers {
    asker: Asker,
    offers: PeerOffers,
}

/// How many askers from the first on were offered no more than so much.
fn count_fitting(room: usize, kept: &[AskerOffers]) -> usize
    ensures { take result kept.now ≡ kept_spec.fitting room kept.now }
{
    let mut left = room;
    let mut count: usize = 0;
    for one in kept {
        let Some(rest) = left.checked_sub(one.offers.all.len()) else {
            return count;
        };
        left = rest;
        count += 1;
    }
    count
}

/// Forgets the oldest if there are more askers or offers than a node keeps.
fn forget_oldest(kept: &mut Vec<AskerOffers>)
    ensures { kept.new.items ≡ kept_spec.youngest kept.old.items }
{
    kept.truncate(OWNERS_MOST);
    let count = count_fitting(OFFERS_MOST, kept);
    kept.truncate(count);
}

/// The place of what this asker was offered.
fn place_of(kept: &[AskerOffers], asker: &Asker) -> Option<usize>
    ensures { result ≡ kept_spec.place_of kept.now asker.now }
{
    kept.iter().position(|one| one.asker == *asker)
}

/// What the askers were offered in their last sessions, the youngest first.
#[derive(Drop)]
struct KeptOffers {
    all: Vec<AskerOffers>,
    ghost bounded: { kept_spec.AreFew all.items },
}

impl KeptOffers {
    /// Nobody was offered anything. It takes no memory.
    fn new(alloc: Global) -> KeptOffers
        ensures { result.all.items ≡ [] }
    {
        KeptOffers {
            all: Vec::new(alloc),
        }
    }

    /// Takes what the asker was offered, if that is kept.
    fn take(&mut self, asker: &Asker) -> Option<PeerOffers>
        ensures taken { kept_spec.IsTaken self.old.all.items asker.now result }
        ensures left { self.new.all.items ≡ kept_spec.without self.old.all.items asker.now }
    {
        let place = place_of(&self.all, asker)?;
        let AskerOffers { asker: _, offers } = self.all.remove(place);
        Some(offers)
    }

    /// Keeps what the asker was offered, and forgets what was kept of it. It is forgotten too if memory is missing.
    fn keep(&mut self, asker: Asker, offers: PeerOffers)
        ensures { kept_spec.IsKept self.old.all.items asker offers self.new.all.items }
    {
        drop(self.take(&asker));
        if offers.all.is_empty() {
            return;
        }
        if self.all.insert(0, AskerOffers { asker, offers }).is_ok() {
            forget_oldest(&mut self.all);
        }
    }
}

/// What each peer was offered in vain in its last session.
#[derive(Drop)]
pub struct VainOffers {
    alloc: Global,
    kept: Mutex<KeptOffers>,
}

impl VainOffers {
    /// Nobody was offered anything. It takes no memory.
    pub fn new(alloc: Global) -> VainOffers {
        VainOffers {
            alloc,
            kept: Mutex::new(KeptOffers::new(alloc)),
        }
    }

    /// Takes what this peer was offered, for a session with it. Nothing if it is not known who asks.
    fn take<R: Wait>(&self, rt: &R, asker: Option<&Asker>) -> PeerOffers {
        let Some(asker) = asker else {
            return PeerOffers::new(self.alloc);
        };
        match self.kept.lock(rt).take(asker) {
            Some(offers) => offers,
            None => PeerOffers::new(self.alloc),
        }
    }

    /// Keeps what this peer was offered, for its next session. Nothing if it is not known who asked.
    fn keep<R: Wait>(&self, rt: &R, asker: Option<Asker>, offers: PeerOffers) {
        if let Some(asker) = asker {
            self.kept.lock(rt).keep(asker, offers);
        }
    }
}

/// A handler that defers what it offered in vain. It first offers the peer what else the peer lacks.
#[derive(Drop)]
pub struct DeferringHandler<'a, H> {
    inner: H,
    vain_offers: &'a VainOffers,
    asker: Option<Asker>,
    offers: PeerOffers,
}

impl<'a, H: Handler> DeferringHandler<'a, H> {
    /// The handler of a session with this peer, or with one that is not known.
    pub fn new<R: Wait>(
        inner: H,
        rt: &R,
        vain_offers: &'a VainOffers,
        asker: Option<Asker>,
    ) -> DeferringHandler<'a, H>
        ensures inner { result.inner ≡ inner }
    {
        let offers = vain_offers.take(rt, asker.as_ref());
        DeferringHandler {
            inner,
            vain_offers,
            asker,
            offers,
        }
    }

    /// Keeps what was offered, for the next session with the peer.
    pub fn into_inner<R: Wait>(self, rt: &R) -> H
        ensures { result ≡ self.entry.inner }
    {
        let DeferringHandler {
            inner,
            vain_offers,
            asker,
            offers,
        } = self;
        vain_offers.keep(rt, asker, offers);
        inner
    }

    /// A copy of the digest. There each owner is held that was offered in vain more often than so many times. None if there is no
    /// such owner, or no room for it.
    fn digest_above(&self, theirs: &Digest, times: u64) -> Option<Digest>
        ensures { IfSome result (spec.IsDeferral self.now.offers.all.items theirs.now times) }
    {
        let alloc = self.vain_offers.alloc;
        let owners = owners_above(alloc, &self.offers.all, theirs, times).ok()?;
        if owners.is_empty() {
            return None;
        }
        with_held(alloc, theirs, &owners)
    }

    /// What the peer lacks of all but the owners that it was offered in vain more often than so many times. None if that is
    /// nothing, or if there is no such owner.
    fn deltas_above(&mut self, theirs: &Digest, times: u64) -> Result<Option<Delta>, Fault>
        ensures tries { spec.Tries H.step self.old.offers.all.items theirs.now times self.old.inner result self.new.inner }
        ensures offers { self.new.offers.all.items ≡ self.old.offers.all.items }
        ensures fault { IfErr result IsRefusal }
    {
        let Some(others) = self.digest_above(theirs, times) else {
            return Ok(None);
        };
        match self.inner.deltas(&others) {
            Err(fault) => Err(fault),
            Ok(delta) => Ok(unless_empty(delta)),
        }
    }

    /// The same, or all that the peer lacks if that is nothing.
    fn deltas_above_or_all(&mut self, theirs: &Digest, times: u64) -> Result<Delta, Fault>
        ensures tries { spec.TriesOr H.step self.old.offers.all.items theirs.now times (spec.Gives H.step theirs.now) self.old.inner result self.new.inner }
        ensures offers { self.new.offers.all.items ≡ self.old.offers.all.items }
        ensures fault { IfErr result IsRefusal }
    {
        match self.deltas_above(theirs, times) {
            Err(fault) => Err(fault),
            Ok(Some(delta)) => Ok(delta),
            Ok(None) => self.inner.deltas(theirs),
        }
    }

    /// If something was offered in vain, and not deferred since, all that was offered in vain is deferred. Otherwise, or if nothing
    /// is left then, all but what was offered least often.
    fn deferring_deltas(&mut self, theirs: &Digest) -> Result<Delta, Fault>
        ensures defers { spec.Defers self.old.offers.all.items H.step theirs.now self.old.inner result self.new.inner }
        ensures offers { self.new.offers.all.items ≡ self.old.offers.all.items }
        ensures fault { IfErr result IsRefusal }
    {
        let least = least_times(&self.offers.all, theirs);
        if !is_any_new(&self.offers.all, theirs) {
            return self.deltas_above_or_all(theirs, least);
        }
        match self.deltas_above(theirs, 0) {
            Err(fault) => Err(fault),
            Ok(Some(delta)) => Ok(delta),
            Ok(None) => self.deltas_above_or_all(theirs, least),
        }
    }
}

impl<H: Handler> Handler for DeferringHandler<'_, H> {
    ghost use Rattle.sb_handlers.specs.Deferring.{DeferringStep, Notes, deferring-nothing, deferring-later};

    ghost step = { λ old act new.
        DeferringStep old.offers.all.items H.step old.inner act new.inner × Notes old.offers.all.items act new.offers.all.items };

    ghost stays = { λ old new. H.stays old.inner new.inner };

    ghost grows = { λ old new. H.grows old.inner new.inner };

    fn digest(&mut self, from: Option<Name>, want: bool) -> Result<Digest, Fault> {
        self.inner.digest(from, want)
    }

    fn deltas(&mut self, theirs: &Digest) -> Result<Delta, Fault> {
        match self.deferring_deltas(theirs) {
            Err(fault) => Err(fault),
            Ok(delta) => {
                let alloc = self.vain_offers.alloc;
                self.offers.note(alloc, theirs, delta.blocks());
                Ok(delta)
            }
        }
    }

    fn apply(&mut self, delta: &ReceivedDelta) -> Result<Report, Fault> {
        self.inner.apply(delta)
    }

    ghost enters_nothing = { λ old new act none step.
        deferring-nothing old.offers.all.items H.step H.stays H.enters_nothing H.stays_still H.stays_on old.inner new.inner act none step.0 };

    ghost stays_still = { λ state. H.stays_still state.inner };

    ghost stays_on = { λ old mid new first then. H.stays_on old.inner mid.inner new.inner first then };

    ghost step_grows = { λ old new act step.
        deferring-later old.offers.all.items H.step H.grows H.step_grows H.grows_still H.grows_on old.inner new.inner act step.0 };

    ghost grows_still = { λ state. H.grows_still state.inner };

    ghost grows_on = { λ old mid new first then. H.grows_on old.inner mid.inner new.inner first then };
}
