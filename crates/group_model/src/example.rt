//! Worlds that meet every condition of the theorems, so that these speak of something.

ghost use Rattle.group_model.specs.Examples.{ThreeMembers, RowsOfAnOutsider};
ghost use Rattle.group_model.specs.ExampleLaws.{FormsOfAda, FormsOfTheCreation, PlacesOfAda, LogsOfThreeMembers};
ghost use Rattle.group_model.specs.ExampleLaws.{LogsOfAnOutsider};

/// There is a lawful world of three members with an update, an add beside it, an ack that forwards, an add-ack that
/// hands on a ratchet, and texts. Members that are entitled to a message learn its update secret, which is really
/// there, and read the text that was sent.
pub fn three_members()
    ensures { ThreeMembers }
{}

/// There is a lawful world in which a member joins by a welcome that hands on the rows of an outsider, who sent an
/// update whose parts don't open. This member knows its own ratchet all the same, and what was made before the
/// outsider's messages is agreed on.
pub fn rows_of_an_outsider()
    ensures { RowsOfAnOutsider }
{}

/// The forms that code meets, on the history of ada: marks of a past, numbers, a past and a view inside a past, its
/// head, the addressees of a message that has no body yet, and places.
pub fn forms_of_a_history()
    ensures history { FormsOfAda }
    ensures creation { FormsOfTheCreation }
    ensures places { PlacesOfAda }
{}

/// The laws of lawful logs, on the logs of both worlds: in each world as in the first example nothing that ada has is
/// forked, each sender's messages are a chain, and a text moves its sender's text chain alone; in each as in the second
/// a member begins with its welcome.
pub fn laws_of_the_logs()
    ensures of_three_members { (e : ThreeMembers) → LogsOfThreeMembers e }
    ensures with_an_outsider { (e : RowsOfAnOutsider) → LogsOfAnOutsider e }
{}
