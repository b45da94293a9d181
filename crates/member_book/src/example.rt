//! The laws of the book, applied to the worlds that meet the theorems' conditions.

ghost use Rattle.group_model.specs.Examples.{ThreeMembers};
ghost use Rattle.member_book.specs.Examples.{BooksOfThreeMembers};

/// In each world as that of three members the books stand for the logs: ada's reads what cyd sent, bob's gives the
/// parts and the update secret of the ack that forwards, and each pairing has a state.
pub fn books_of_three_members()
    ensures { (e : ThreeMembers) → BooksOfThreeMembers e }
{}
