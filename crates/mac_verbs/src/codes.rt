//! Message authentication codes of the text (FIPS 113, ANSI X9.9, ANSI X9.19).
ghost use Rattle.std.specs.Prelude.{◌≡◌, ◌≤◌, ◌<◌, None, length, take};
ghost use Rattle.cca_vectors.specs.Checks.{first_failing};
ghost use Rattle.cca_vectors.specs.Vectors.{length_of};
ghost use Rattle.des_blocks.specs.Texts.{text_in};
ghost use Rattle.key_cells.specs.Lease.{bench_of};
ghost use Rattle.multi_encipher.specs.Bundles.{ChangesKeyAt};
ghost use Rattle.verb_rules.specs.declared.lengths.TextUse.{TextUse};
ghost use Rattle.verb_rules.specs.Keys.{HasHalves, opened};
ghost use Rattle.verb_rules.specs.LengthChecks.{mac_checks, text_checks};
ghost use Rattle.mac_verbs.specs.Codes.{code_of, is_code};

use des_core::{cbc_mac, x919_mac};
use key_cells::{KeyPlace, Lease};
use verb_rules::{Judged, MacRule, TextUse, schedule_key};

/// The code of the text under the clear key of a judged internal token. A verb replies its leftmost bytes. Only the
/// place `Key` and the schedules of the lease change.
pub fn mac_generate(lease: &mut Lease, key: &Judged, rule: MacRule) -> [u8; 8]
    requires halves { HasHalves key.now }
    requires text { first_failing (text_checks TextUse.Mac (bench_of lease.old).text.size) ≡ None }
    requires key { first_failing (mac_checks rule (length_of key.now.token.vector)) ≡ None }
    ensures code { let clear = opened (bench_of lease.old) key.now in
        result ≡ code_of rule clear (text_in lease.old) }
    ensures stays { ChangesKeyAt KeyPlace.Key lease.old lease.new }
{
    schedule_key(lease, key);
    let [left, right, _] = lease.schedules();
    match rule {
        MacRule::X99 => cbc_mac(left, lease.text()),
        MacRule::X919 => x919_mac(left, right, lease.text()),
    }
}

/// The first bytes of a code.
fn front(code: &[u8; 8], count: usize) -> &[u8]
    requires { count ≤ 8 }
    ensures { result.now ≡ take count code.now }
{
    &code[..count]
}

/// Whether these bytes, 4, 6 or 8, are the leftmost so many of the code of the text under the clear key of a judged
/// internal token. Only the place `Key` and the schedules of the lease change.
pub fn mac_verify(lease: &mut Lease, key: &Judged, rule: MacRule, mac: &[u8]) -> bool
    requires halves { HasHalves key.now }
    requires text { first_failing (text_checks TextUse.Mac (bench_of lease.old).text.size) ≡ None }
    requires key { first_failing (mac_checks rule (length_of key.now.token.vector)) ≡ None }
    requires shortest { 4 ≤ length mac.now }
    requires longest { length mac.now ≤ 8 }
    ensures same { let clear = opened (bench_of lease.old) key.now in
        result ≡ is_code rule clear (text_in lease.old) mac.now }
    ensures stays { ChangesKeyAt KeyPlace.Key lease.old lease.new }
{
    let code = mac_generate(lease, key, rule);
    mac == front(&code, mac.len())
}
