//! The text of a schema that is a profile.

/// A schema that has the forms of the protocol and nothing else, but for the line of the vector. A schema with other numbers and further
/// declarations may be a profile too. Names and fields of updates are those of "Working with Updates" (core.telegram.org/api/updates); the
/// numbers, and the names that begin with `peer`, `replay` and `state`, are this project's own.
pub const PROFILE_TEXT: &str = "\
vector#1cb5c415 {t:Type} # [ t ] = Vector t;\n\
updateNewMessage#b0c50101 body:bytes pts:int pts_count:int = Update;\n\
updateEditMessage#b0c50102 body:bytes pts:int pts_count:int = Update;\n\
updateDeleteMessages#b0c50103 ids:Vector<int> pts:int pts_count:int = Update;\n\
updateNewEncryptedMessage#b0c50104 body:bytes qts:int = Update;\n\
updateNewChannelMessage#b0c50105 channel_id:long body:bytes pts:int pts_count:int = Update;\n\
updateEditChannelMessage#b0c50106 channel_id:long body:bytes pts:int pts_count:int = Update;\n\
updateDeleteChannelMessages#b0c50107 channel_id:long ids:Vector<int> pts:int pts_count:int = Update;\n\
updateChannelTooLong#b0c50108 channel_id:long = Update;\n\
updateSetting#b0c50109 key:string value:bytes = Update;\n\
updateReadHistory#b0c5010a max_id:int pts:int pts_count:int = Update;\n\
updateReadChannelHistory#b0c5010b channel_id:long max_id:int pts:int pts_count:int = Update;\n\
updatesTooLong#b0c50201 = Updates;\n\
updates#b0c50202 updates:Vector<Update> date:int seq:int = Updates;\n\
updatesCombined#b0c50203 updates:Vector<Update> date:int seq_start:int seq:int = Updates;\n\
updates.state#b0c50301 pts:int qts:int date:int seq:int = updates.State;\n\
updates.differenceEmpty#b0c50302 date:int seq:int = updates.Difference;\n\
updates.difference#b0c50303 new_messages:Vector<bytes> new_encrypted_messages:Vector<bytes> other_updates:Vector<Update> state:updates.State = updates.Difference;\n\
updates.differenceSlice#b0c50304 new_messages:Vector<bytes> new_encrypted_messages:Vector<bytes> other_updates:Vector<Update> intermediate_state:updates.State = updates.Difference;\n\
updates.channelDifferenceEmpty#b0c50305 flags:# final:flags.0?true pts:int = updates.ChannelDifference;\n\
updates.channelDifference#b0c50306 flags:# final:flags.0?true pts:int new_messages:Vector<bytes> other_updates:Vector<Update> = updates.ChannelDifference;\n\
updates.channelDifferenceTooLong#b0c50307 flags:# final:flags.0?true pts:int messages:Vector<bytes> = updates.ChannelDifference;\n\
peer.push#b0c50401 updates:Updates = peer.Frame;\n\
peer.stateReply#b0c50402 number:int state:%updates.State = peer.Frame;\n\
peer.differenceReply#b0c50403 number:int difference:updates.Difference = peer.Frame;\n\
peer.channelReply#b0c50404 number:int difference:updates.ChannelDifference = peer.Frame;\n\
peer.receiptReply#b0c50405 number:int receipt:%peer.Receipt = peer.Frame;\n\
peer.errorReply#b0c50406 number:int code:int text:string = peer.Frame;\n\
peer.receipt#b0c50407 pts:int qts:int date:int seq:int = peer.Receipt;\n\
peer.postMessage#b0c50411 body:bytes = peer.Post;\n\
peer.postEdit#b0c50412 body:bytes = peer.Post;\n\
peer.postDelete#b0c50413 ids:Vector<int> = peer.Post;\n\
peer.postSecret#b0c50414 body:bytes = peer.Post;\n\
peer.postChannelMessage#b0c50415 channel_id:long body:bytes = peer.Post;\n\
peer.postChannelEdit#b0c50416 channel_id:long body:bytes = peer.Post;\n\
peer.postChannelDelete#b0c50417 channel_id:long ids:Vector<int> = peer.Post;\n\
peer.postSetting#b0c50418 key:string value:bytes = peer.Post;\n\
peer.postRead#b0c50419 max_id:int = peer.Post;\n\
peer.postChannelRead#b0c5041a channel_id:long max_id:int = peer.Post;\n\
replay.post#b0c50501 random_id:long posts:Vector<peer.Post> = replay.Step;\n\
replay.date#b0c50502 date:int = replay.Step;\n\
replay.serve#b0c50503 packet:int = replay.Step;\n\
replay.hear#b0c50504 client:int packet:int = replay.Step;\n\
replay.tick#b0c50505 client:int = replay.Step;\n\
replay.wake#b0c50506 client:int = replay.Step;\n\
replay.watch#b0c50507 client:int channel_id:long = replay.Step;\n\
replay.restart#b0c50508 client:int = replay.Step;\n\
replay.tooLong#b0c50509 = replay.Step;\n\
replay.channelTooLong#b0c5050a channel_id:long = replay.Step;\n\
state.new#b0c50601 body:bytes = state.Event;\n\
state.edit#b0c50602 body:bytes = state.Event;\n\
state.delete#b0c50603 ids:Vector<int> = state.Event;\n\
state.read#b0c50608 max_id:int = state.Event;\n\
state.lane#b0c50604 restart:int at:int events:Vector<state.Event> = state.Lane;\n\
state.setting#b0c50605 key:string value:bytes = state.Setting;\n\
state.channel#b0c50606 channel_id:long lane:%state.Lane recent:Vector<bytes> = state.Channel;\n\
state.client#b0c50607 version:int next:int common:%state.Lane secret:%state.Lane date:int seq:int settings:Vector<%state.Setting> channels:Vector<%state.Channel> = state.Client;\n\
---functions---\n\
updates.getState#b0c50311 = updates.State;\n\
updates.getDifference#b0c50312 pts:int qts:int date:int = updates.Difference;\n\
updates.getChannelDifference#b0c50313 channel_id:long pts:int = updates.ChannelDifference;\n\
peer.invoke#b0c50421 {X:Type} number:int query:!X = X;\n\
peer.post#b0c50422 random_id:long posts:Vector<peer.Post> = peer.Receipt;\n\
";
