//! Laws of the definitions: the headline of `run`, `import` and `follow take`.
ghost use Rattle.std.specs.Prelude.{◌≡◌, ℕ, List, [], ◌∷◌, ◌++◌};
ghost use Rattle.tb_disk.specs.Disks.{DiskState};
ghost use Rattle.tb_gates.specs.Clocks.{ClockState};
ghost use Rattle.tb_message.specs.declared.message.Entry.{Entry};
ghost use Rattle.tb_parcel.specs.declared.parcel.Parcel.{Parcel};
ghost use Rattle.tb_replica.specs.declared.taken.TakeFault.{TakeFault};
ghost use Rattle.tb_commands.specs.DiskRun.{Stays};
ghost use Rattle.tb_commands.specs.FollowTakeRun.{BreaksBehind, HasCome};
ghost use Rattle.tb_commands.specs.ImportRun.{IsImport, SentRow};
ghost use Rattle.tb_commands.specs.ScriptRun.{IsRun};
ghost use Rattle.tb_commands.specs.Standings.{Standing};
ghost use Rattle.tb_commands.specs.declared.sender.Sender.{Sender};
ghost use Rattle.tb_host.specs.ScriptHeadline.{FollowHeadline, ImportHeadline, RunHeadline};

/// The headline of `run`, along one chain of standings, where the disk keeps the last history: of the reply to each
/// line, of the entries past the first history, and of each group that a crash may have left.
pub fn run_headline()
    ensures { (operator : List ℕ) (disk : DiskState) (first last : Standing) (lines : List (List ℕ))
        (replies : List ℕ) (more : List Entry)
        → IsRun operator first lines replies last
        → first.doubt ≡ []
        → first.doubted ≡ []
        → last.history ≡ first.history ++ more
        → Stays last disk
        → RunHeadline operator disk first last more lines replies }
{}

/// The headline of `import`, likewise: of the answers to each run of rows, of the entries past the first history, and of
/// each group that a crash may have left.
pub fn import_headline()
    ensures { (sender : Sender) (disk : DiskState) (clock clock' : ClockState) (first last : Standing)
        (runs : List (List SentRow)) (text : List ℕ) (more : List Entry)
        → IsImport sender clock clock' first runs text last
        → first.doubt ≡ []
        → first.doubted ≡ []
        → last.history ≡ first.history ++ more
        → Stays last disk
        → ImportHeadline sender disk clock clock' first last more runs text }
{}

/// The headline of `follow take`, likewise: of the parcels that were taken, with the one that ended it where one did; of
/// the entries past the first history; and of the entry that a crash may have left behind it.
pub fn follow_headline()
    ensures taken { (disk : DiskState) (parcels : List Parcel) (first last : Standing) (more : List Entry)
        → HasCome parcels first last
        → first.doubted ≡ []
        → last.history ≡ first.history ++ more
        → Stays last disk
        → FollowHeadline disk first last more parcels }
    ensures broken { (disk : DiskState) (why : TakeFault) (parcels : List Parcel) (parcel : Parcel)
        (first last : Standing) (more : List Entry)
        → BreaksBehind why parcels parcel first last
        → first.doubted ≡ []
        → last.history ≡ first.history ++ more
        → Stays last disk
        → FollowHeadline disk first last more (parcels ++ parcel ∷ []) }
{}
