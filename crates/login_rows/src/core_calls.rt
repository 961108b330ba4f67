// The calls of the core and of the judge with memory enough, the journal when it is full, and the greatest
// number of locks.

mod answers;
mod devices;
mod full;
mod judging;
mod locks;
mod stepping;
