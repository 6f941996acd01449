// Live entries by key and field, and whether two of them agree.
ghost use Rattle.std.specs.Prelude.{◌≡◌, true};
ghost use Rattle.store.specs.Store.{decode, well_formed, entry_at};
ghost use Rattle.store.specs.Promises.{Held};
ghost use Rattle.compare.specs.Listing.{live_slot_of, agree};

use store::find::named_near;
use store::read;
use wire::bytes::equal;

// The slot in which a key and a field are live at an instant; the hint's slot is looked at first.
pub fn live_near(store: &[u8], key: &[u8], field: &[u8], instant: u64, hint: usize) -> Option<usize>
    requires { well_formed store.now ≡ true }
    ensures { result ≡ live_slot_of instant key.now field.now (decode store.now).slots }
{
    let i = named_near(store, key, field, hint)?;
    read::is_live(store, i, instant).then_some(i)
}

// Whether the entries of two slots have the same value, version and expiry.
pub fn agree(first: &[u8], i: usize, second: &[u8], j: usize) -> bool
    requires { (Held first.now i) × (Held second.now j) }
    ensures { result ≡ agree (entry_at (decode first.now).slots i) (entry_at (decode second.now).slots j) }
{
    equal(read::value(first, i), read::value(second, j))
        && read::version(first, i) == read::version(second, j)
        && read::expiry(first, i) == read::expiry(second, j)
}
