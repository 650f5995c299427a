//! The codes of commands, returns and object types, as the public header `binder.h` gives them.
//!
//! A code has the direction in bits 30 and 31, the payload's size in bits 16 to 29, a letter in bits 8 to 15
//! and a number in bits 0 to 7.

/// `BC_TRANSACTION`: the code of a command.
pub const BC_TRANSACTION: u32 = 0x40406300;

/// `BC_REPLY`: the code of a command.
pub const BC_REPLY: u32 = 0x40406301;

/// `BC_FREE_BUFFER`: the code of a command.
pub const BC_FREE_BUFFER: u32 = 0x40086303;

/// `BC_INCREFS`: the code of a command.
pub const BC_INCREFS: u32 = 0x40046304;

/// `BC_ACQUIRE`: the code of a command.
pub const BC_ACQUIRE: u32 = 0x40046305;

/// `BC_RELEASE`: the code of a command.
pub const BC_RELEASE: u32 = 0x40046306;

/// `BC_DECREFS`: the code of a command.
pub const BC_DECREFS: u32 = 0x40046307;

/// `BC_INCREFS_DONE`: the code of a command.
pub const BC_INCREFS_DONE: u32 = 0x40106308;

/// `BC_ACQUIRE_DONE`: the code of a command.
pub const BC_ACQUIRE_DONE: u32 = 0x40106309;

/// `BC_ENTER_LOOPER`: the code of a command.
pub const BC_ENTER_LOOPER: u32 = 0x0000630c;

/// `BC_EXIT_LOOPER`: the code of a command.
pub const BC_EXIT_LOOPER: u32 = 0x0000630d;

/// `BC_REQUEST_DEATH_NOTIFICATION`: the code of a command.
pub const BC_REQUEST_DEATH_NOTIFICATION: u32 = 0x400c630e;

/// `BC_CLEAR_DEATH_NOTIFICATION`: the code of a command.
pub const BC_CLEAR_DEATH_NOTIFICATION: u32 = 0x400c630f;

/// `BC_DEAD_BINDER_DONE`: the code of a command.
pub const BC_DEAD_BINDER_DONE: u32 = 0x40086310;

/// `BC_ACQUIRE_RESULT`: a command that is refused by name.
pub const BC_ACQUIRE_RESULT: u32 = 0x40046302;

/// `BC_ATTEMPT_ACQUIRE`: a command that is refused by name.
pub const BC_ATTEMPT_ACQUIRE: u32 = 0x4008630a;

/// `BC_REGISTER_LOOPER`: a command that is refused by name.
pub const BC_REGISTER_LOOPER: u32 = 0x0000630b;

/// `BC_TRANSACTION_SG`: a command that is refused by name.
pub const BC_TRANSACTION_SG: u32 = 0x40486311;

/// `BC_REPLY_SG`: a command that is refused by name.
pub const BC_REPLY_SG: u32 = 0x40486312;

/// `BR_TRANSACTION`: the code of a return.
pub const BR_TRANSACTION: u32 = 0x80407202;

/// `BR_REPLY`: the code of a return.
pub const BR_REPLY: u32 = 0x80407203;

/// `BR_DEAD_REPLY`: the code of a return.
pub const BR_DEAD_REPLY: u32 = 0x00007205;

/// `BR_TRANSACTION_COMPLETE`: the code of a return.
pub const BR_TRANSACTION_COMPLETE: u32 = 0x00007206;

/// `BR_INCREFS`: the code of a return.
pub const BR_INCREFS: u32 = 0x80107207;

/// `BR_ACQUIRE`: the code of a return.
pub const BR_ACQUIRE: u32 = 0x80107208;

/// `BR_RELEASE`: the code of a return.
pub const BR_RELEASE: u32 = 0x80107209;

/// `BR_DECREFS`: the code of a return.
pub const BR_DECREFS: u32 = 0x8010720a;

/// `BR_NOOP`: the code of a return.
pub const BR_NOOP: u32 = 0x0000720c;

/// `BR_DEAD_BINDER`: the code of a return.
pub const BR_DEAD_BINDER: u32 = 0x8008720f;

/// `BR_CLEAR_DEATH_NOTIFICATION_DONE`: the code of a return.
pub const BR_CLEAR_DEATH_NOTIFICATION_DONE: u32 = 0x80087210;

/// `BR_FAILED_REPLY`: the code of a return.
pub const BR_FAILED_REPLY: u32 = 0x00007211;

/// `BR_ONEWAY_SPAM_SUSPECT`: the code of a return.
pub const BR_ONEWAY_SPAM_SUSPECT: u32 = 0x00007213;

/// `BINDER_TYPE_BINDER`: the type of a flat object.
pub const BINDER: u32 = 0x73622a85;

/// `BINDER_TYPE_WEAK_BINDER`: the type of a flat object.
pub const WEAK_BINDER: u32 = 0x77622a85;

/// `BINDER_TYPE_HANDLE`: the type of a flat object.
pub const HANDLE: u32 = 0x73682a85;

/// `BINDER_TYPE_WEAK_HANDLE`: the type of a flat object.
pub const WEAK_HANDLE: u32 = 0x77682a85;

/// `BINDER_TYPE_FD`: the type of a flat object, not supported.
pub const FD: u32 = 0x66642a85;

/// `BINDER_TYPE_FDA`: the type of a flat object, not supported.
pub const FDA: u32 = 0x66646185;

/// `BINDER_TYPE_PTR`: the type of a flat object, not supported.
pub const PTR: u32 = 0x70742a85;
