// Comparing restrictions, over every kind of reading.
ghost use Rattle.matching.specs.Verdicts.{Judged, MeetsAll};

use kinds::kind::Kind;

// Whether `bore` admits all that `shaft` admits, and else a reading that shows that it does not.
pub fn judge<K: Kind>(shaft: &K, bore: &K) -> Result<(), K::Reading>
    ensures answer { Judged K.Kind.domain shaft.now bore.now result }
{
    if shaft.within(bore) {
        Ok(())
    } else {
        Err(shaft.beyond(bore))
    }
}

// The restriction that admits what all of `rs` admit: every reading where there are none.
pub fn meet_all<K: Kind>(rs: &[K]) -> K
    ensures answer { MeetsAll K.Kind.domain rs.now result }
{
    rs.iter().fold(K::whole(), |all, r| all.meet(*r))
}
