ghost use Rattle.std.specs.Prelude.{◌≡◌, ◌⊎◌, ℕ, true, false};
ghost use Rattle.zb_types.specs.declared.ids.ServerId.{ServerId};
ghost use Rattle.zb_types.specs.declared.nodes.Members.{Members};
ghost use Rattle.zb_types.specs.declared.nodes.State.TheVariants.{Whole, Out, Mending};
ghost use Rattle.zb_types.specs.declared.requests.Request.{Request};
ghost use Rattle.zb_tables.specs.Taking.{IsServer, Sizes};
ghost use Rattle.zb_recovery.specs.Missing.{Servers, is_unfit, names_server};
ghost use Rattle.zb_sound.specs.Changing.{OthersFit};
ghost use Rattle.zb_sound.specs.Delivering.{after_asked};
ghost use Rattle.zb_sound.specs.NodesFit.{NoOtherLost, Nodes, NodesAreFit, NodesStop, OthersServe, OthersStay};

/// Nodes stay fit: where no platter is blank and all is whole; at each request; where servers stop; where a server goes up
/// whose super cell is its own and that isn't out or mending; whatever becomes of one that doesn't serve and is known to be
/// blank, or is out or mending; and where one is marked out or mending that doesn't serve, while all others do.
pub fn nodes_stay_fit()
    ensures whole { (n : ℕ) (members : Members) (st : Servers) (nodes : Nodes)
        → members.state ≡ Whole → ((s : ServerId) → IsServer n s → st.blank s ≡ false) → NodesAreFit n members st.blank nodes }
    ensures request { (n : ℕ) (members : Members) (st : Servers) (nodes : Nodes) (asked : ServerId × Request)
        → NodesAreFit n members st.blank nodes → NodesAreFit n members (after_asked st asked).blank nodes }
    ensures stops { (n : ℕ) (members : Members) (st : Servers) (nodes new : Nodes)
        → NodesStop nodes new → NodesAreFit n members st.blank nodes → NodesAreFit n members st.blank new }
    ensures up { (n : ℕ) (members : Members) (st : Servers) (nodes new : Nodes) (a : ServerId)
        → OthersStay nodes new st.blank st.blank a → is_unfit members st.blank a ≡ false
        → NodesAreFit n members st.blank nodes → NodesAreFit n members st.blank new }
    ensures away { (n : ℕ) (members : Members) (st after : Servers) (nodes new : Nodes) (a : ServerId)
        → OthersStay nodes new st.blank after.blank a → new.serves a ≡ false → (new.blank a ≡ true) ⊎ (names_server members.state a ≡ true)
        → NodesAreFit n members st.blank nodes → NodesAreFit n members after.blank new }
    ensures mark { (n : ℕ) (before members : Members) (st : Servers) (nodes : Nodes) (a : ServerId)
        → (members.state ≡ Out a) ⊎ (members.state ≡ Mending a) → nodes.serves a ≡ false → OthersServe n nodes a
        → NodesAreFit n before st.blank nodes → NodesAreFit n members st.blank nodes }
{}

/// What fit nodes are for: where all others serve, and where no other is known to be blank or is out or mending, all others
/// are fit.
pub fn fit_nodes_leave_others_fit()
    ensures serving { (z : Sizes) (members : Members) (st : Servers) (nodes : Nodes) (a : ServerId)
        → OthersServe z.servers nodes a → NodesAreFit z.servers members st.blank nodes → OthersFit z members st a }
    ensures none_lost { (z : Sizes) (members : Members) (st : Servers) (nodes : Nodes) (a : ServerId)
        → NoOtherLost z.servers members nodes a → NodesAreFit z.servers members st.blank nodes → OthersFit z members st a }
{}
