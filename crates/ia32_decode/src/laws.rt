//! Laws of the definition of spelling. The decoder and that definition stop as soon as nothing can follow; that this loses
//! nothing is seen here. Each function is a law and does nothing.

ghost use Rattle.ia32_decode.specs.PrefixLists.{
  PrefixesAreAccepted,
  FifteenAreRefused,
  PrefixesAloneAreRefused,
  GroupsAreTheirForms,
};

/// Prefixes count by what stands among them and not by their order, but for F3, which may be the last or not. They are
/// accepted wherever F3 stands once at most, 65 with neither 2E nor 3E, and the opcode goes with what they say.
pub fn accepted_prefixes()
    ensures exactly { PrefixesAreAccepted }
    ensures fifteen { FifteenAreRefused }
    ensures alone { PrefixesAloneAreRefused }
{}

/// A group of opcodes accepts what its forms accept, with any prefixes.
pub fn group_forms()
    ensures exactly { GroupsAreTheirForms }
{}
