// The checks of the board's calls, each the condition of one refusal.
ghost use Rattle.std.specs.Prelude.{not, ◌&&◌, ◌||◌, ◌≡◌, eqb, ltb};
ghost use Rattle.octets.specs.Octets.{same};
ghost use Rattle.framing.specs.Identity.{default_id, is_password};
ghost use Rattle.block.specs.Command.{is_function};
ghost use Rattle.block.specs.Request.{well_formed, only_reads};
ghost use Rattle.framing.specs.Refusal.{checked};
ghost use Rattle.board.specs.Answering.{scope_of, in_identity};
ghost use Rattle.model.specs.Record.{client, is_id, is_mode, is_unit};

use commands::Scope;
use framing::Check;

// Refusal 20: an ID has 16 bytes and is not the default ID.
pub(crate) fn check_id(id: &[u8]) -> Check
    ensures { result ≡ checked (not (is_id id.now)) }
{
    framing::passed_if(id.len() == framing::ID_SIZE && !framing::is_default_id(id))
}

// Refusal 21: a password has at most 8 characters, each a digit or a letter.
pub(crate) fn check_new_password(password: &[u8]) -> Check
    ensures { result ≡ checked (not (is_password password.now)) }
{
    framing::passed_if(framing::is_password(password))
}

// Refusal 22: the mode is 1 (client) or 2 (access point).
pub(crate) fn check_mode(mode: u8) -> Check
    ensures { result ≡ checked (not (is_mode mode)) }
{
    match mode {
        1 | 2 => Check::Passed,
        _ => Check::Failed,
    }
}

// Refusal 23: the unit type is 2 (Micra), or 3, 4 or 5 (VENTO Expert).
pub(crate) fn check_unit(unit: u8) -> Check
    ensures { result ≡ checked (not (is_unit unit)) }
{
    framing::passed_if((2..=5).contains(&unit))
}

// Refusal 1: the response buffer has room for the longest packet.
pub(crate) fn check_buffer(length: usize) -> Check
    ensures { result ≡ checked (ltb length 256) }
{
    framing::passed_if(framing::LONGEST_PACKET <= length)
}

// Refusal 7: the ID is the board's own or the default ID.
pub(crate) fn check_address(own: &[u8], id: &[u8]) -> Check
    ensures { result ≡ checked (not (same id.now own.now || same id.now default_id)) }
{
    framing::passed_if(octets::equal(id, own) || framing::is_default_id(id))
}

// Which parameters are open: in client mode the default ID asks for a discovery.
pub(crate) fn scope_of(mode: u8, id: &[u8]) -> Scope
    ensures { result ≡ scope_of (eqb mode client && same id.now default_id) }
{
    if mode == 1 && framing::is_default_id(id) {
        return Scope::Identity;
    }
    Scope::All
}

// Refusal 8: a discovery compares no password.
pub(crate) fn check_password(scope: Scope, own: &[u8], password: &[u8]) -> Check
    ensures { result ≡ checked (not (in_identity scope) && not (same password.now own.now)) }
{
    let Scope::All = scope else {
        return Check::Passed;
    };
    framing::passed_if(octets::equal(password, own))
}

// Refusal 9: FUNC is one of the five functions.
pub(crate) fn check_function(function: u8) -> Check
    ensures { result ≡ checked (not (is_function function)) }
{
    framing::passed_if((1..=5).contains(&function))
}

// Refusal 10: the data block is well formed from its FUNC on.
pub(crate) fn check_block(function: u8, bytes: &[u8]) -> Check
    ensures { result ≡ checked (not (well_formed function bytes.now)) }
{
    framing::passed_if(block::request::well_formed(bytes, function))
}

// Refusal 11: a discovery only reads, where its block is well formed.
pub(crate) fn check_reads(scope: Scope, function: u8, bytes: &[u8]) -> Check
    ensures { result ≡ checked (in_identity scope && not (only_reads function bytes.now)) }
{
    let Scope::Identity = scope else {
        return Check::Passed;
    };
    framing::passed_if(block::request::only_reads(bytes, function))
}
