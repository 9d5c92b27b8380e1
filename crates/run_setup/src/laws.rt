//! What holds of images and their models.
ghost use Rattle.run_setup.specs.Laws.{JudgedIsMet, LoadedIsReady, ReturnedIsMachine, GoodIsServed};

/// An image with the parameters and requirements of a well typed model is called with arguments exactly where they
/// meet the model and their arrays have at most 67,108,864 bytes in sum.
pub fn judged_is_met()
    ensures { JudgedIsMet }
{}

/// The state from which an image with the parameters of a model is called is ready for the call, where the arguments
/// meet the model and their arrays have at most 67,108,864 bytes in sum.
pub fn loaded_is_ready()
    ensures { LoadedIsReady }
{}

/// Where the call of a good image from a ready state has returned, the registers are words and the bytes are bytes, as
/// they are in every state of a machine.
pub fn returned_is_machine()
    ensures { ReturnedIsMachine }
{}

/// The run of a good image with arguments that meet its model, whose arrays have at most 67,108,864 bytes in sum and
/// whose bound is at most 1,000,000,000, returns within the bound, and its results are printed as the model's are; they are
/// the model's where the elements of those are words.
pub fn good_is_served()
    ensures { GoodIsServed }
{}
