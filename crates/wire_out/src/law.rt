// Laws of mail, as functions that do nothing and ensure them.

ghost use Rattle.wire_out.specs.Laws.{MailGoesOn, NoMailApart, PlaceGoesOn, WireGoesOn};

/// The mail by a journal begins the mail by each journal that goes on from it.
pub fn mail_goes_on()
    ensures { MailGoesOn }
{}

/// So do its bytes: what is due behind it is the rest.
pub fn wire_goes_on()
    ensures { WireGoesOn }
{}

/// The place by a journal is one in each journal that goes on from it.
pub fn place_goes_on()
    ensures { PlaceGoesOn }
{}

/// A connection that is not connected gets no mail of entries that do not connect it.
pub fn no_mail_apart()
    ensures { NoMailApart }
{}
