use crate::checker::check_sizes;
use crate::object::{fields_at, header_word_at};
use crate::object_table::ObjectTable;
use crate::partners::partners_of;
use crate::starts::Starts;
use crate::verdict::CheckFault;
use gc_words::{Addr, Header, ImageRef, Pair, Refusal, Value, decode_wide};
use std::alloc::Global;
use std::marker::Model;

/// Two images and a certificate whose addresses are right: each pair joins two starts, new addresses rise, and no old
/// address occurs twice. A lookup finds the partner of an old address in constant time. Contracts see the images and
/// the pairs.
#[derive(Drop)]
pub struct Tables<'a> {
    old: Starts<'a>,
    new: ImageRef<'a>,
    cert: &'a [Pair],
    /// For each old object: the new address that is paired with it, or 0.
    partners: ObjectTable,
}

impl<'a> Model for Tables<'a> {
    ghost use Rattle.gc_words.specs.Views.{image_of};
    ghost use Rattle.gc_cert.specs.Grammar.{CertifiedPair};
    ghost use Rattle.gc_check.specs.Internal.Tables.{HasTables};
    ghost use Rattle.gc_check.specs.Verdict.{pairs_of};

    ghost Value = { CertifiedPair };

    ghost view = { λ t. record {
      old = t.old;
      new = image_of t.new;
      pairs = pairs_of t.cert.now;
    } };

    ghost invariant = { λ t. HasTables (record {
      old = t.old;
      new = image_of t.new;
      pairs = pairs_of t.cert.now;
    }) t.partners };
}

impl<'a> Tables<'a> {
    ghost use Rattle.std.specs.Prelude.{◌≡◌, ◌<◌, ◌≤◌, ◌^◌, None, length, MatchResult};
    ghost use Rattle.gc_graph.specs.Correspond.{paired};
    ghost use Rattle.gc_words.specs.Word.{words_correspond, field_words_correspond};
    ghost use Rattle.gc_words.specs.Fault.{table_fault, pair_fault, root_fault, first_difference};
    ghost use Rattle.gc_words.specs.Views.{image_of};
    ghost use Rattle.gc_check.specs.Profile.{small_table_fault};
    ghost use Rattle.gc_check.specs.Internal.Tables.{HasTables};
    ghost use Rattle.gc_check.specs.Pairs.{pair_at};
    ghost use Rattle.gc_check.specs.Verdict.{pairs_of, IsRefusalOf};

    /// Builds the tables of two images of at most `MOST_WORDS` words and a certificate, which they borrow. Allocates
    /// three times. Returns `Refused` with the first fault of shapes, root counts or addresses of pairs, or `NoMemory`.
    /// A larger image is refused as `check` refuses it.
    #[tactic(auto, using(crate::proofs::Sizes::small_tables))]
    pub fn new(
        alloc: Global,
        old: ImageRef<'a>,
        new: ImageRef<'a>,
        cert: &'a [Pair],
    ) -> Result<Tables<'a>, CheckFault>
        requires { length cert.now < 2 ^ 32 }
        ensures { MatchResult result
            (λ tables. (small_table_fault (image_of old.entry) (image_of new.entry) (pairs_of cert.now) ≡ None)
            × (tables ≡ record {
              old = image_of old.entry;
              new = image_of new.entry;
              pairs = pairs_of cert.now;
            }))
            (IsRefusalOf (small_table_fault (image_of old.entry) (image_of new.entry) (pairs_of cert.now))) }
    {
        match check_sizes(alloc, old, new) {
            Ok(()) => Tables::new_wide(alloc, old, new, cert),
            Err(fault) => Err(fault),
        }
    }

    /// Builds the tables of two images of any size and a certificate, as `new` does.
    pub fn new_wide(
        alloc: Global,
        old: ImageRef<'a>,
        new: ImageRef<'a>,
        cert: &'a [Pair],
    ) -> Result<Tables<'a>, CheckFault>
        requires { length cert.now < 2 ^ 32 }
        ensures { MatchResult result
            (λ tables. (table_fault (image_of old.entry) (image_of new.entry) (pairs_of cert.now) ≡ None)
            × (tables ≡ record {
              old = image_of old.entry;
              new = image_of new.entry;
              pairs = pairs_of cert.now;
            }))
            (IsRefusalOf (table_fault (image_of old.entry) (image_of new.entry) (pairs_of cert.now))) }
    {
        let old_starts = match Starts::new(alloc, old) {
            Ok(starts) => starts,
            Err(fault) => return Err(fault.of_old()),
        };
        let new_starts = match Starts::new(alloc, new) {
            Ok(starts) => starts,
            Err(fault) => return Err(fault.of_new()),
        };
        if old.roots.len() != new.roots.len() {
            return Err(CheckFault::Refused(Refusal::RootCount));
        }
        let partners = partners_of(alloc, &old_starts, &new_starts, cert)?;
        Ok(Tables {
            old: old_starts,
            new,
            cert,
            partners,
        })
    }

    /// Returns the tables of pairs that were found together with their table of partners.
    pub(crate) fn of_partners(
        old: Starts<'a>,
        new: ImageRef<'a>,
        cert: &'a [Pair],
        partners: ObjectTable,
    ) -> Tables<'a>
        requires { HasTables (record {
          old = old;
          new = image_of new;
          pairs = pairs_of cert.now;
        }) partners }
        ensures { result ≡ record {
          old = old.entry;
          new = image_of new.entry;
          pairs = pairs_of cert.now;
        } }
    {
        Tables {
            old,
            new,
            cert,
            partners,
        }
    }

    /// Returns the number of pairs.
    pub fn count(&self) -> u32
        ensures { result ≡ length self.now.pairs }
    {
        self.cert.len() as u32
    }

    /// Returns the first fault of the header and the fields of the objects that pair `k` joins. Does not allocate.
    pub fn pair_fault(&self, k: u32) -> Option<Refusal>
        requires { k < length self.now.pairs }
        ensures { result ≡ pair_fault self.now.old self.now.new self.now.pairs k (pair_at self.now.pairs k) }
    {
        let pair = self.cert[k as usize];
        let k = u64::from(k);
        // Two headers are the same exactly if their words are.
        let word = header_word_at(self.old.words(), pair.old.0);
        if word != header_word_at(self.new.words, pair.new.0) {
            return Some(Refusal::HeaderDiffers { k });
        }
        let header = Header::read(word).unwrap();
        let old = fields_at(self.old.words(), pair.old.0, header);
        let new = fields_at(self.new.words, pair.new.0, header);
        match self.field_difference(header, old, new) {
            Some(i) => Some(Refusal::FieldDiffers { k, i }),
            None => None,
        }
    }

    /// Returns the first fault of the roots. Does not allocate.
    pub fn root_fault(&self) -> Option<Refusal>
        ensures { result ≡ root_fault self.now.old self.now.new self.now.pairs }
    {
        match self.first_difference(self.old.roots(), self.new.roots) {
            Some(slot) => Some(Refusal::RootDiffers { slot }),
            None => None,
        }
    }

    // Returns the first field at which two objects with this header differ. No word of a raw object is a reference.
    #[tactic(auto, using(crate::proofs::Placements::raw_alike, crate::proofs::Placements::value_alike))]
    fn field_difference(&self, header: Header, old: &[u64], new: &[u64]) -> Option<u64>
        requires { length old.now ≡ length new.now }
        ensures { result
            ≡ first_difference (field_words_correspond header self.now.pairs) 0 old.now new.now }
    {
        if header.is_raw() {
            first_unequal(old, new)
        } else {
            self.first_difference(old, new)
        }
    }

    // Returns the first place at which the words do not correspond.
    fn first_difference(&self, old: &[u64], new: &[u64]) -> Option<u64>
        requires { length old.now ≡ length new.now }
        ensures { result ≡ first_difference (words_correspond self.now.pairs) 0 old.now new.now }
    {
        for i in 0..old.len() {
            if !self.is_correspondence(old[i], new[i]) {
                return Some(i as u64);
            }
        }
        None
    }

    // Returns whether the words are values that correspond. Decodes neither of them if both are nil or the same number.
    fn is_correspondence(&self, old: u64, new: u64) -> bool
        ensures { result ≡ words_correspond self.now.pairs old new }
    {
        if old == new && (old == 0 || old % 2 == 1) {
            return true;
        }
        let Some(Value::Ref(address)) = decode_wide(old) else {
            return false;
        };
        let Some(Value::Ref(other)) = decode_wide(new) else {
            return false;
        };
        self.is_partner(address, other)
    }

    // Returns whether the addresses are a pair.
    fn is_partner(&self, old: Addr, new: Addr) -> bool
        requires { 1 ≤ new.0 }
        ensures { result ≡ paired self.now.pairs old.0 new.0 }
    {
        self.partners.get(&self.old, old.0) == new.0
    }
}

ghost use Rattle.std.specs.Prelude.{◌≡◌, ◌==◌, length};
ghost use Rattle.gc_words.specs.Fault.{first_difference};

// Returns the first place at which two words differ. The words of a raw object can be any numbers.
fn first_unequal(old: &[u64], new: &[u64]) -> Option<u64>
    requires { length old.now ≡ length new.now }
    ensures { result ≡ first_difference (λ v w. v == w) 0 old.now new.now }
{
    if old == new {
        return None;
    }
    for i in 0..old.len() {
        if old[i] != new[i] {
            return Some(i as u64);
        }
    }
    None
}
