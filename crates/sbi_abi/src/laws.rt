//! A law of the definitions, the contract of a function that does nothing.

ghost use Rattle.std.specs.Prelude.{◌≡◌, ◌↔◌, ℕ};
ghost use Rattle.sbi_abi.specs.Calls.{call_at};
ghost use Rattle.sbi_abi.specs.Table.{IsCallAt};
ghost use Rattle.sbi_abi.specs.declared.call.Call.{Call};

/// The registers ask for just one call: the row of the table whose extension and function are in a7 and a6,
/// compared in all their bits, and `Unknown` exactly where no row has them.
pub fn registers_determine_call()
    ensures { (extension function a b c : ℕ) (call : Call) → call_at extension function a b c ≡ call
        ↔ IsCallAt extension function a b c call }
{}
