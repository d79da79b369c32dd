// No code: a message as a header and items. An item lies where its text does; one left out or doubled is refused; the records are those of the items.
#![tactic(auto)]
