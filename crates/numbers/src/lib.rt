// Every number that stands for something, by name: a module a list, which `all` hands back in order.
// specs/Numbers.antt has the same names for definitions. Every list is an enum too, but the kinds of
// events, which `events::Log` has a method each for, and the refusals, which are `refusal::Refusal`.
// The constants stay, since words of the log and the header of C have them. `all` and `number` stand
// in each module and in no trait: they name the constants of the module. What may be told as a case or
// as a number is generic over `numbered::Numbered`.
#![tactic(auto)]

pub mod abandon;
pub mod attribution;
pub mod close;
pub mod cycle;
pub mod event;
pub mod evidence;
pub mod item;
pub mod message;
pub mod numbered;
pub mod purpose;
pub mod reason;
pub mod refused;
pub mod slot;
pub mod start;
pub mod teardown;
pub mod wait;
